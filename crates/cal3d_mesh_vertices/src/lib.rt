// The vertices of a submesh by cursor, judged one after the other, and how many influences they have.
#![tactic(auto)]

ghost use Rattle.std.specs.Prelude.{◌+◌, ◌*◌, length};
ghost use Rattle.wire.specs.Cursors.{Inside, left};
ghost use Rattle.layout.specs.Counted.{times};
ghost use Rattle.shared_counted_lists.specs.Runs.{Runs};
ghost use Rattle.shared_counted_lists.specs.Sums.{Sums};
ghost use Rattle.cal3d_spec.specs.Meshes.{read_cloth, read_vertex};
ghost use Rattle.cal3d_mesh_vertices.specs.Vertices.{read_mapped, read_influences, row_count, influence_count, influences_in};

use layout::{Refusal, refusals};
use wire::Cursor;

// How many vertices and springs a submesh has, and how many maps each vertex.
#[derive(Clone, Copy)]
pub struct SubmeshSizes {
    pub vertices: usize,
    pub springs: usize,
    pub maps: usize,
}

// Judges a vertex's numbers and its `maps` maps, in a submesh with this number of vertices. Returns the cursor after them, or a refusal.
fn pass_mapped(s: &[u8], c: Cursor, vertices: usize, maps: usize) -> Result<Cursor, Refusal>
    requires { Inside c (length s.now) }
    ensures { Runs (read_mapped vertices maps c.at (left c s.now)) c (32 + maps * 8) result }
{
    let rows = shared_counted_lists::link_row(s, c, 6, 0, vertices)?;
    shared_counted_lists::id_rows(s, rows, maps, 2, 0, 0)
}

// Judges a vertex's influences after their number, bone ids being below `bones`. Returns how many there are and the cursor after them, or a refusal.
fn judge_influences(s: &[u8], c: Cursor, bones: usize) -> Result<(usize, Cursor), Refusal>
    requires { Inside c (length s.now) }
    ensures { Sums row_count (read_influences bones c.at (left c s.now)) c 4 result }
{
    let Some((stored, rows)) = c.number(s) else {
        return Err(Refusal {
            number: refusals::CUT_ITEM,
            place: c.at,
        });
    };
    if 2147483647 < stored {
        return Err(Refusal {
            number: refusals::RANGE,
            place: c.at,
        });
    }
    let count = wire::size(stored);
    let next = shared_counted_lists::id_rows(s, rows, count, 2, 1, bones)?;
    Ok((count, next))
}

// Passes the cloth weight of a vertex, which stands only if the submesh has springs. Returns the cursor after it, or 5 if it is cut.
fn pass_cloth(s: &[u8], c: Cursor, springs: usize) -> Result<Cursor, Refusal>
    requires { Inside c (length s.now) }
    ensures { Runs (read_cloth springs c.at (left c s.now)) c 0 result }
{
    if 0 < springs {
        let Some((_, next)) = c.number(s) else {
            return Err(Refusal {
                number: refusals::CUT_ITEM,
                place: c.at,
            });
        };
        return Ok(next);
    }
    Ok(c)
}

// Judges one vertex of a submesh of the sizes `n`, bone ids being below `bones`. Returns how many influences it has and the cursor after it, or a refusal.
fn judge_vertex(
    s: &[u8],
    c: Cursor,
    bones: usize,
    n: SubmeshSizes,
) -> Result<(usize, Cursor), Refusal>
    requires { Inside c (length s.now) }
    ensures { Sums influence_count (read_vertex bones n.vertices n.springs n.maps c.at (left c s.now)) c (36 + n.maps * 8) result }
{
    let number = pass_mapped(s, c, n.vertices, n.maps)?;
    let (count, cloth) = judge_influences(s, number, bones)?;
    let next = pass_cloth(s, cloth, n.springs)?;
    Ok((count, next))
}

// Judges the vertices of a submesh of the sizes `n`, bone ids being below `bones`. Returns how many influences they have and the cursor after them, or the
// first refusal. Each takes 36 bytes or more, so that the walk ends with the bytes, whatever the number says.
pub fn judge_vertices(
    s: &[u8],
    from: Cursor,
    bones: usize,
    n: SubmeshSizes,
) -> Result<(usize, Cursor), Refusal>
    requires { Inside from (length s.now) }
    ensures { Sums influences_in (times n.vertices (read_vertex bones n.vertices n.springs n.maps) from.at
        (left from s.now)) from (n.vertices * (36 + n.maps * 8)) result }
{
    let mut c = from;
    let mut influences: usize = 0;
    for _ in 0..n.vertices {
        let (count, next) = judge_vertex(s, c, bones, n)?;
        influences += count;
        c = next;
    }
    Ok((influences, c))
}
