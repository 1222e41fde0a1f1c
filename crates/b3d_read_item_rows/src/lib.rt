// Rows of the items of one chunk, from its body: items copied as they are, vertices and keys; and the row that a TRIS or KEYS has itself.
#![tactic(auto)]

ghost use Rattle.std.specs.Prelude.{◌≡◌, ◌+◌, ◌-◌, ◌*◌, ◌/◌, ◌<◌, ◌≤◌, length};
ghost use Rattle.std.proofs.lemmas.List.Edits.{sets as stored};
ghost use Rattle.wire.specs.Cursors.{Inside, left};
ghost use Rattle.b3d_spec.specs.Mask.{ones, vertex_mask};
ghost use Rattle.layout.specs.Rows.{joined};
ghost use Rattle.b3d_spec_plain_rows.specs.Plain.{whole, plain_vertices};
ghost use Rattle.b3d_read_item_rows.specs.Items.{shape_rows, key_rows_of, group_items, group_row};

use b3d_chunk_walk::Three;
use b3d_spec::{KEY_WIDTH, VERTEX_WIDTH};
use wire::Cursor;

// Stores the items of `width` words at `c` that are all there in `out` from cell `base` on, as they stand. Returns the cell behind them.
pub fn store_items(file: &[u8], c: Cursor, width: usize, base: usize, out: &mut [u32]) -> usize
    requires { Inside c (length file.now) × (0 < width) × (width ≤ 64) × (base + length (joined (whole width (left c file.now))) ≤ length out.old) }
    ensures { (result ≡ base + length (joined (whole width (left c file.now))))
        × (out.new ≡ stored out.old base (joined (whole width (left c file.now)))) }
{
    let at = c.at;
    let end = c.end;
    let n = (end - at) / (4 * width) * width;
    shared_table_words::copy_words(file, Cursor { at, end }, n, base, out);
    base + n
}

// Returns how many whole vertices stand behind the three numbers `h` of a VRTS. Numbers out of range count as the row's groups take them: two flag bits, at
// most 8 sets of at most 4.
pub fn shape_count(h: Three) -> usize
    requires { h.rest.at ≤ h.rest.end }
    ensures { result ≡ (h.rest.end - h.rest.at) / (4 * ones (vertex_mask h.first h.second h.third)) }
{
    let sets = b3d_rule_widths::at_most(h.second, 8);
    let size = b3d_rule_widths::at_most(h.third, 4);
    let width = b3d_rule_widths::vertex_words(h.first % 4, sets, size);
    let rest = h.rest;
    let at = rest.at;
    let end = rest.end;
    (end - at) / (4 * width)
}

// Stores the rows of the vertices of a VRTS with this `body` in `out` from cell `base` on. Returns the cell behind them. A row has room for 8 sets of 4,
// whatever the numbers say.
pub fn store_vertex_rows(file: &[u8], body: Cursor, base: usize, out: &mut [u32]) -> usize
    requires { Inside body (length file.now) × (base + length (joined (shape_rows (plain_vertices (left body file.now)))) ≤ length out.old) }
    ensures { (result ≡ base + length (joined (shape_rows (plain_vertices (left body file.now)))))
        × (out.new ≡ stored out.old base (joined (shape_rows (plain_vertices (left body file.now))))) }
{
    let h = b3d_chunk_walk::three_words(file, body);
    let flags = h.first % 4;
    let sets = b3d_rule_widths::at_most(h.second, 8);
    let size = b3d_rule_widths::at_most(h.third, 4);
    let width = b3d_rule_widths::vertex_words(flags, sets, size);
    let rest = h.rest;
    let at = rest.at;
    let end = rest.end;
    let count = (end - at) / (4 * width);
    b3d_read_vertex_rows::fill_vertices(
        file,
        Cursor { at, end },
        flags,
        sets,
        size,
        count,
        base,
        out,
    );
    base + count * VERTEX_WIDTH
}

// Stores the rows of the keys of a KEYS with this `body` in `out` from cell `base` on. Returns the cell behind them; `base` where the flags are cut.
pub fn store_keys(file: &[u8], body: Cursor, base: usize, out: &mut [u32]) -> usize
    requires { Inside body (length file.now) × (base + length (joined (key_rows_of (left body file.now))) ≤ length out.old) }
    ensures { (result ≡ base + length (joined (key_rows_of (left body file.now))))
        × (out.new ≡ stored out.old base (joined (key_rows_of (left body file.now)))) }
{
    let at = body.at;
    let end = body.end;
    if end - at < 4 {
        return base;
    }
    let flags = wire::number_at(file, at);
    let width = b3d_rule_widths::key_words(flags);
    let from = at + 4;
    let count = (end - from) / (4 * width);
    b3d_read_key_rows::fill_keys(
        file,
        Cursor { at: from, end },
        flags,
        width,
        count,
        base,
        out,
    );
    base + count * KEY_WIDTH
}

// Stores the row of a KEYS (`keys`) of node `owner` or of a TRIS of mesh `owner` in `out` from cell `base` on: the owner, the first number of `body`, the
// number `first` of the first item, and how many items are all there. Returns how many.
pub fn store_group(
    file: &[u8],
    body: Cursor,
    keys: bool,
    owner: usize,
    first: usize,
    base: usize,
    out: &mut [u32],
) -> usize
    requires { Inside body (length file.now) × (length file.now < 0x100000000) × (owner < 0x100000000) × (first < 0x100000000)
        × (base + 4 ≤ length out.old) }
    ensures { (result ≡ length (group_items keys (left body file.now)))
        × (out.new ≡ stored out.old base (group_row keys owner first (left body file.now))) }
{
    let head = b3d_chunk_walk::first_word(file, body);
    let number = head.word;
    let rest = head.rest;
    let at = rest.at;
    let end = rest.end;
    let width = b3d_rule_widths::item_width(keys, number);
    let count = (end - at) / (4 * width);
    let row = [
        shared_table_words::cell(owner),
        number,
        shared_table_words::cell(first),
        shared_table_words::cell(count),
    ];
    shared_table_words::put_cells(out, base, &row);
    count
}
