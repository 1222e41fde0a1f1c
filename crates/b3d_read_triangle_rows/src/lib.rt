// Rows of tables 6 and 7 for one MESH, from its body: its triangle sets and their triangles.
#![tactic(auto)]

ghost use Rattle.std.specs.Prelude.{◌≡◌, ◌+◌, ◌*◌, ◌<◌, ◌≤◌, length};
ghost use Rattle.std.proofs.lemmas.List.Edits.{sets as stored};
ghost use Rattle.wire.specs.Cursors.{left};
ghost use Rattle.layout.specs.Rows.{joined};
ghost use Rattle.b3d_chunk_walk.specs.Walks.{BodyAt};
ghost use Rattle.b3d_read_triangle_rows.specs.Sets.{triangles_in, sets_in, SetsPut};

use b3d_chunk_walk::Sought;
use b3d_spec::{TRIANGLE_SET_WIDTH, TRIANGLE_WIDTH, Tag};
use wire::Cursor;

// Stores the triangles of the MESH at `p` with this `body` in `out` from cell `base` on. Returns the cell behind them.
pub fn store_triangles(file: &[u8], p: usize, body: Cursor, base: usize, out: &mut [u32]) -> usize
    requires { BodyAt file.now p body × (base + length (joined (triangles_in p (left body file.now))) ≤ length out.old) }
    ensures { (result ≡ base + length (joined (triangles_in p (left body file.now))))
        × (out.new ≡ stored out.old base (joined (triangles_in p (left body file.now)))) }
{
    let head = b3d_chunk_walk::first_word(file, body);
    let mut c = head.rest;
    let mut o = base;
    loop {
        let Some(Sought { body: b, next, .. }) = b3d_chunk_walk::seek(file, c, Tag::TRIS) else {
            return o;
        };
        let set = b3d_chunk_walk::first_word(file, b);
        o = b3d_read_item_rows::store_items(file, set.rest, TRIANGLE_WIDTH, o, out);
        c = next;
    }
}

// The cell of table 6 and the number of the triangle that come next.
#[derive(Clone, Copy)]
pub struct After {
    pub base: usize,
    pub first: usize,
}

// Stores the rows of the triangle sets of the MESH at `p`, which is mesh number `mesh`, in `out` from cell `base` on; its first triangle is number `first`.
// Returns the cell and the triangle number behind them.
pub fn put_sets(
    file: &[u8],
    p: usize,
    body: Cursor,
    mesh: usize,
    first: usize,
    base: usize,
    out: &mut [u32],
) -> After
    requires { BodyAt file.now p body × (length file.now < 0x100000000) × (mesh < 0x100000000) × (first ≤ p) × (base ≤ 4 * p)
        × (base + length (joined (sets_in p (left body file.now) mesh first)) ≤ length out.old) }
    ensures { SetsPut file.now p body mesh first base out.old out.new result }
{
    let head = b3d_chunk_walk::first_word(file, body);
    let mut c = head.rest;
    let mut o = base;
    let mut n = first;
    loop {
        let Some(Sought { body: b, next, .. }) = b3d_chunk_walk::seek(file, c, Tag::TRIS) else {
            return After { base: o, first: n };
        };
        n += b3d_read_item_rows::store_group(file, b, false, mesh, n, o, out);
        o += TRIANGLE_SET_WIDTH;
        c = next;
    }
}
