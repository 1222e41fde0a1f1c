// Tables 4 to 7, the meshes with their vertices, triangle sets and triangles, filled by one loop over the flat run.
#![tactic(auto)]

ghost use Rattle.std.specs.Prelude.{◌≡◌, ◌+◌, ◌-◌, ◌<◌, ◌≤◌, length};
ghost use Rattle.std.proofs.lemmas.List.Edits.{sets as stored};
ghost use Rattle.layout.specs.Rows.{joined};
ghost use Rattle.b3d_spec_plain_rows.specs.Rows.{file_rows};
ghost use Rattle.b3d_chunk_walk.specs.Walks.{BodyAt};
ghost use Rattle.b3d_read_meshes.specs.Marks.{MeshMarksFit, MeshRoom, MeshStored};

use b3d_spec::{MESH_WIDTH, Tag};
use wire::Cursor;

// How far tables 4 to 7 are filled: how many nodes, meshes, vertices, triangle sets and triangles came before, and the next free cell of each table.
#[derive(Clone, Copy)]
pub struct MeshMarks {
    pub nodes: usize,
    pub meshes: usize,
    pub vertices: usize,
    pub sets: usize,
    pub triangles: usize,
    pub to4: usize,
    pub to5: usize,
    pub to6: usize,
    pub to7: usize,
}

// Stores the rows of the MESH at `p` with this `body` in tables 4 to 7, filled as far as `m` says. Returns how far they are filled then.
fn put_one(
    file: &[u8],
    p: usize,
    body: Cursor,
    m: MeshMarks,
    t4: &mut [u32],
    t5: &mut [u32],
    t6: &mut [u32],
    t7: &mut [u32],
) -> MeshMarks
    requires body_at { BodyAt file.now p body × (length file.now < 0x100000000) × MeshMarksFit p m }
    requires mesh_room { MeshRoom file.now p body m (length t4.old) (length t5.old) (length t6.old) (length t7.old) }
    ensures { MeshStored file.now p body m t4.old t5.old t6.old t7.old
        t4.new t5.new t6.new t7.new result }
{
    let meshes = m.meshes + 1;
    let to4 = m.to4 + MESH_WIDTH;
    let node = b3d_chunk_walk::current(m.nodes);
    let more = b3d_read_mesh_rows::store_mesh(file, p, body, node, m.vertices, m.sets, m.to4, t4);
    let vertices = m.vertices + more.vertices;
    let sets = m.sets + more.sets;
    let to5 = b3d_read_mesh_rows::store_vertices(file, p, body, m.to5, t5);
    let to7 = b3d_read_triangle_rows::store_triangles(file, p, body, m.to7, t7);
    let after = b3d_read_triangle_rows::put_sets(file, p, body, m.meshes, m.triangles, m.to6, t6);
    MeshMarks {
        nodes: m.nodes,
        meshes,
        vertices,
        sets,
        triangles: after.first,
        to4,
        to5,
        to6: after.base,
        to7,
    }
}

// Stores the rows of tables 4 to 7 of `file` in `t4` to `t7`. The cells behind them stay as they were.
pub fn store_meshes(file: &[u8], t4: &mut [u32], t5: &mut [u32], t6: &mut [u32], t7: &mut [u32])
    requires { (length file.now < 0x100000000) × (length (joined (file_rows 4 file.now)) ≤ length t4.old)
        × (length (joined (file_rows 5 file.now)) ≤ length t5.old)
        × (length (joined (file_rows 6 file.now)) ≤ length t6.old) × (length (joined (file_rows 7 file.now)) ≤ length t7.old) }
    ensures { (t4.new ≡ stored t4.old 0 (joined (file_rows 4 file.now)))
        × (t5.new ≡ stored t5.old 0 (joined (file_rows 5 file.now)))
        × (t6.new ≡ stored t6.old 0 (joined (file_rows 6 file.now)))
        × (t7.new ≡ stored t7.old 0 (joined (file_rows 7 file.now))) }
{
    if file.len() < 12 {
        return;
    }
    let mut at: usize = 12;
    let mut m = MeshMarks {
        nodes: 0,
        meshes: 0,
        vertices: 0,
        sets: 0,
        triangles: 0,
        to4: 0,
        to5: 0,
        to6: 0,
        to7: 0,
    };
    loop {
        let Some(chunk) = b3d_chunk_walk::flat_next(file, at) else {
            return;
        };
        if b3d_chunk_cursor::same(chunk.tag, Tag::MESH) {
            m = put_one(file, chunk.at, chunk.body, m, t4, t5, t6, t7);
        } else if b3d_chunk_cursor::same(chunk.tag, Tag::NODE) {
            m.nodes = m.nodes + 1;
        }
        at = chunk.next;
    }
}
