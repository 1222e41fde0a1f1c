// Rows of tables 5 and 4 for one MESH, from its body: its vertices, and its own row.
#![tactic(auto)]

ghost use Rattle.std.specs.Prelude.{◌≡◌, ◌+◌, ◌-◌, ◌<◌, ◌≤◌, length};
ghost use Rattle.std.proofs.lemmas.List.Edits.{sets as stored};
ghost use Rattle.wire.specs.Cursors.{Inside, left};
ghost use Rattle.layout.specs.Rows.{joined};
ghost use Rattle.b3d_spec_plain_rows.specs.Plain.{sets_of};
ghost use Rattle.b3d_chunk_walk.specs.Walks.{BodyAt};
ghost use Rattle.b3d_chunk_walk.specs.Seeks.{ahead};
ghost use Rattle.b3d_read_mesh_rows.specs.Meshes.{vertices_in, ShapeFound, MeshPut};

use b3d_chunk_walk::Sought;
use b3d_spec::Tag;
use wire::Cursor;

// Stores the rows of the vertices of the MESH at `p` with this `body` in `out` from cell `base` on. Returns the cell behind them; `base` where it has no
// VRTS.
pub fn store_vertices(file: &[u8], p: usize, body: Cursor, base: usize, out: &mut [u32]) -> usize
    requires { BodyAt file.now p body × (base + length (joined (vertices_in p (left body file.now))) ≤ length out.old) }
    ensures { (result ≡ base + length (joined (vertices_in p (left body file.now))))
        × (out.new ≡ stored out.old base (joined (vertices_in p (left body file.now)))) }
{
    let head = b3d_chunk_walk::first_word(file, body);
    let Some(Sought { body: b, .. }) = b3d_chunk_walk::seek(file, head.rest, Tag::VRTS) else {
        return base;
    };
    b3d_read_item_rows::store_vertex_rows(file, b, base, out)
}

// Returns how many TRIS stand from the cursor `from` on.
fn count_sets(file: &[u8], from: Cursor) -> usize
    requires { Inside from (length file.now) }
    ensures { (result ≡ length (sets_of (ahead file.now from))) × (result ≤ from.end - from.at) }
{
    let mut c = from;
    let mut n: usize = 0;
    loop {
        let Some(Sought { next, .. }) = b3d_chunk_walk::seek(file, c, Tag::TRIS) else {
            return n;
        };
        n += 1;
        c = next;
    }
}

// Flags, sets and set size of the first VRTS, 0 where there is none, and how many vertices it has.
#[derive(Clone, Copy)]
pub struct Vertices {
    pub flags: u32,
    pub sets: u32,
    pub size: u32,
    pub count: usize,
}

// Returns the three numbers and the vertex count of the first VRTS from the cursor `from` on; zeros where there is none.
fn find_shape(file: &[u8], from: Cursor) -> Vertices
    requires { Inside from (length file.now) }
    ensures { ShapeFound file.now from result }
{
    let Some(Sought { body, .. }) = b3d_chunk_walk::seek(file, from, Tag::VRTS) else {
        return Vertices {
            flags: 0,
            sets: 0,
            size: 0,
            count: 0,
        };
    };
    let h = b3d_chunk_walk::three_words(file, body);
    let count = b3d_read_item_rows::shape_count(h);
    Vertices {
        flags: h.first,
        sets: h.second,
        size: h.third,
        count,
    }
}

// How many vertices and triangle sets a MESH adds.
#[derive(Clone, Copy)]
pub struct Added {
    pub vertices: usize,
    pub sets: usize,
}

// Stores the row of the MESH at `p` of node `node` in `out` from cell `base` on; its first vertex is number `vertices`, its first triangle set number `sets`.
// Returns how many of both it has.
pub fn store_mesh(
    file: &[u8],
    p: usize,
    body: Cursor,
    node: usize,
    vertices: usize,
    sets: usize,
    base: usize,
    out: &mut [u32],
) -> Added
    requires { BodyAt file.now p body × (length file.now < 0x100000000) × (node < 0x100000000) × (vertices < 0x100000000) × (sets < 0x100000000)
        × (base + 9 ≤ length out.old) }
    ensures { MeshPut file.now p body node vertices sets base out.old out.new result }
{
    let head = b3d_chunk_walk::first_word(file, body);
    let v = find_shape(file, head.rest);
    let n = count_sets(file, head.rest);
    let count = v.count;
    let row_cells = [
        shared_table_words::cell(node),
        head.word,
        v.flags,
        v.sets,
        v.size,
        shared_table_words::cell(vertices),
        shared_table_words::cell(count),
        shared_table_words::cell(sets),
        shared_table_words::cell(n),
    ];
    shared_table_words::put_cells(out, base, &row_cells);
    Added {
        vertices: count,
        sets: n,
    }
}
