// The lists of a submesh by cursor, judged by the rules: its vertices, its springs, its faces; and how many entries they hold.
#![tactic(auto)]

ghost use Rattle.std.specs.Prelude.{length};
ghost use Rattle.wire.specs.Cursors.{Inside, left};
ghost use Rattle.cal3d_mesh_submesh_lists.specs.Contents.{Contains, contents_of, read_lists};

use cal3d_mesh_vertices::SubmeshSizes;
use layout::Refusal;
use wire::Cursor;

// How many vertices, maps, influences, springs and faces there are.
#[derive(Clone, Copy)]
pub struct Contents {
    pub vertices: usize,
    pub maps: usize,
    pub influences: usize,
    pub springs: usize,
    pub faces: usize,
}

// Judges the lists of a submesh with the sizes `n` and `faces` faces, bone ids being below `bones`. Returns how many entries they hold and the cursor after
// them, or a refusal.
pub fn judge_lists(
    s: &[u8],
    c: Cursor,
    bones: usize,
    n: SubmeshSizes,
    faces: usize,
) -> Result<(Contents, Cursor), Refusal>
    requires { Inside c (length s.now) }
    ensures { Contains contents_of (read_lists bones n.vertices n.springs n.maps faces c.at (left c s.now)) c 0 result }
{
    let (influences, first) = cal3d_mesh_vertices::judge_vertices(s, c, bones, n)?;
    let maps = n.vertices * n.maps;
    let second = shared_counted_lists::id_rows(s, first, n.springs, 4, 2, n.vertices)?;
    let next = shared_counted_lists::id_rows(s, second, faces, 3, 3, n.vertices)?;
    Ok((
        Contents {
            vertices: n.vertices,
            maps,
            influences,
            springs: n.springs,
            faces,
        },
        next,
    ))
}
