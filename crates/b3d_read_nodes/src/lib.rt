// The row of one node in table 3: with a branch word that is given, or with the number of nodes below it, counted ahead.
#![tactic(auto)]

ghost use Rattle.std.specs.Prelude.{◌≡◌, ◌+◌, ◌<◌, ◌≤◌, length};
ghost use Rattle.std.proofs.lemmas.List.Edits.{sets as stored};
ghost use Rattle.wire.specs.Cursors.{left};
ghost use Rattle.layout.specs.Parts.{named};
ghost use Rattle.b3d_spec.specs.Rules.{node_row};
ghost use Rattle.b3d_spec.specs.Tables.{node_width};
ghost use Rattle.b3d_spec_plain_rows.specs.Flat.{flat_at};
ghost use Rattle.b3d_spec_plain_rows.specs.Rows.{row_of};
ghost use Rattle.b3d_chunk_walk.specs.Walks.{BodyAt};
ghost use Rattle.b3d_read_node_cells.specs.Parts.{told};
ghost use Rattle.b3d_read_nodes.specs.RowWith.{row_with, RowRead};

use b3d_chunk_cursor::Named;
use b3d_spec::columns;
use wire::Cursor;

// Stores the row of the NODE at `p` with this `body` in `out` from cell `base` on: its name has `long` bytes, its ten numbers are at `row`, its own chunks
// begin at `next`, its branch word is `below`, and `meshes` meshes and `weights` weights were read before it.
pub fn store_row(
    file: &[u8],
    p: usize,
    body: Cursor,
    long: usize,
    row: Cursor,
    next: usize,
    parent: u32,
    below: u32,
    meshes: usize,
    weights: usize,
    base: usize,
    out: &mut [u32],
)
    requires { RowRead file.now p body long row × (next ≤ length file.now)
        × (length file.now < 0x100000000) × (meshes < 0x100000000) × (weights < 0x100000000) × (base + node_width ≤ length out.old) }
    ensures { out.new ≡ stored out.old
        base (row_with (named node_row (p + 8) (left body file.now)) (flat_at file.now next) parent below (told meshes weights)) }
{
    let numbers = base + columns::NODE_POSITION;
    let last = base + columns::NODE_KIND;
    let head = [
        shared_table_words::cell(body.at),
        shared_table_words::cell(long),
        parent,
    ];
    shared_table_words::put_cells(out, base, &head);
    shared_table_words::copy_words(file, row, 10, numbers, out);
    let parts = b3d_read_node_cells::part_cells(file, next, below, meshes, weights);
    shared_table_words::put_cells(out, last, &parts);
}

// Stores the row of the NODE at `p` with this `body` in `out` from cell `base` on. Its own chunks begin at `next`, and `meshes` meshes and `weights` weights
// were read before it. Nothing is stored if its text or numbers are cut.
pub fn store_node(
    file: &[u8],
    p: usize,
    body: Cursor,
    next: usize,
    parent: u32,
    meshes: usize,
    weights: usize,
    base: usize,
    out: &mut [u32],
)
    requires { BodyAt file.now p body × (next ≤ length file.now)
        × (length file.now < 0x100000000) × (meshes < 0x100000000) × (weights < 0x100000000) × (base + node_width ≤ length out.old) }
    ensures { out.new ≡ stored out.old
        base (row_of (named node_row (p + 8) (left body file.now)) (flat_at file.now next) parent body.end (told meshes weights)) }
{
    let Some(Named { length, row, .. }) = b3d_chunk_cursor::named_row(file, body, 10) else {
        return;
    };
    let below = b3d_read_node_branch::nodes_before(file, next, body.end);
    store_row(
        file, p, body, length, row, next, parent, below, meshes, weights, base, out,
    );
}
