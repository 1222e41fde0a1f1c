// Rows of table 5 from the words of a file: position, normal, colour and eight sets of coordinates, absent parts as zeros.
#![tactic(auto)]

ghost use Rattle.std.specs.Prelude.{◌≡◌, ◌+◌, ◌-◌, ◌*◌, ◌≤◌, length, replicate, map};
ghost use Rattle.std.proofs.lemmas.List.Edits.{sets as stored};
ghost use Rattle.wire.specs.Cursors.{Inside, left};
ghost use Rattle.layout.specs.Parts.{items_of};
ghost use Rattle.b3d_spec.specs.Rules.{vertex_words, highest_vertex_flags, most_sets, largest_set};
ghost use Rattle.b3d_spec.specs.Mask.{padded, vertex_mask};
ghost use Rattle.b3d_spec.specs.Tables.{vertex_width};
ghost use Rattle.layout.specs.Rows.{joined};
ghost use Rattle.b3d_read_vertex_rows.specs.Vertices.{all_sets, vertex_at};

use b3d_spec::{VERTEX_WIDTH, columns};
use wire::Cursor;

// Stores zeros in the four cells of each of `n` sets, in `out` from cell `base` on.
fn zero_sets(n: usize, base: usize, out: &mut [u32])
    requires { (n ≤ 8) × (base + n * 4 ≤ length out.old) }
    ensures { out.new ≡ stored out.old base (replicate (n * 4) 0) }
{
    match n {
        0 => shared_table_words::put_same(0, 0, base, out),
        1 => shared_table_words::put_same(0, 4, base, out),
        2 => shared_table_words::put_same(0, 8, base, out),
        3 => shared_table_words::put_same(0, 12, base, out),
        4 => shared_table_words::put_same(0, 16, base, out),
        5 => shared_table_words::put_same(0, 20, base, out),
        6 => shared_table_words::put_same(0, 24, base, out),
        7 => shared_table_words::put_same(0, 28, base, out),
        _ => shared_table_words::put_same(0, 32, base, out),
    }
}

// Stores the 32 cells of the sets of a vertex in `out` from cell `base` on: `sets` sets of `size` words of `file` from byte `at` on, the others zero.
fn put_sets(file: &[u8], at: usize, sets: usize, size: usize, base: usize, out: &mut [u32])
    requires { (size ≤ largest_set) × (sets ≤ most_sets) × (at + 4 * (sets * size) ≤ length file.now) × (base + 32 ≤ length out.old) }
    ensures { out.new ≡ stored out.old base (all_sets sets size file.now at) }
{
    let mut p = at;
    let mut o = base;
    for _ in 0..sets {
        b3d_read_row_runs::put_four(file, p, size, o, out);
        p += 4 * size;
        o += 4;
    }
    zero_sets(8 - sets, o, out);
}

// Stores the row of one vertex in `out` from cell `base` on, from byte `at` of `file`: 3 words of a position, `a` of a normal, `b` of a colour, and `sets`
// sets of `size` words; absent parts are zeros.
fn store_vertex(
    file: &[u8],
    at: usize,
    a: usize,
    b: usize,
    sets: usize,
    size: usize,
    base: usize,
    out: &mut [u32],
)
    requires { (a ≤ 3) × (b ≤ 4) × (size ≤ largest_set) × (sets ≤ most_sets) × (at + 4 * (3 + a + b + sets * size) ≤ length file.now)
        × (base + vertex_width ≤ length out.old) }
    ensures { out.new ≡ stored out.old base (vertex_at a b sets size file.now at) }
{
    b3d_read_row_runs::put_three(file, at, 3, base, out);
    b3d_read_row_runs::put_three(file, at + 12, a, base + columns::VERTEX_NORMAL, out);
    b3d_read_row_runs::put_four(file, at + 12 + 4 * a, b, base + columns::VERTEX_COLOUR, out);
    put_sets(
        file,
        at + 12 + 4 * a + 4 * b,
        sets,
        size,
        base + columns::VERTEX_COORDINATES,
        out,
    );
}

// Stores `count` rows of 42 cells in `out` from cell `base` on, from the vertices of a VRTS of `flags`, `sets` and set `size` that stand at `c`. The other
// cells stay as they were.
pub fn fill_vertices(
    file: &[u8],
    c: Cursor,
    flags: u32,
    sets: u32,
    size: u32,
    count: usize,
    base: usize,
    out: &mut [u32],
)
    requires inside { Inside c (length file.now) × (c.at + count * (4 * vertex_words flags sets size) ≤ c.end)
        × (base + count * vertex_width ≤ length out.old) }
    requires flags_le_highest_vertex_flags { (flags ≤ highest_vertex_flags) × (sets ≤ most_sets) × (size ≤ largest_set) }
    ensures { out.new ≡ stored out.old base
        (joined (map (padded (vertex_mask flags sets size)) (items_of count (vertex_words flags sets size) (left c file.now)))) }
{
    let a = wire::size(flags % 2 * 3);
    let b = wire::size(flags / 2 % 2 * 4);
    let n = wire::size(sets);
    let z = wire::size(size);
    let words = b3d_rule_widths::vertex_words(flags, sets, size);
    // Place and cell are sums: with products of the row's number the compiler no longer tells vertices with sets from those without before the loop, and one
    // without takes twice the instructions.
    let mut at = c.at;
    let mut o = base;
    for _ in 0..count {
        store_vertex(file, at, a, b, n, z, o, out);
        at += 4 * words;
        o += VERTEX_WIDTH;
    }
}
