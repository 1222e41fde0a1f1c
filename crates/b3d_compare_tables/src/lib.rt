// What differs between two files in one table, row by row with no table lent, as entries that are put into a lent output from a place on, or only counted.
#![tactic(auto)]

ghost use Rattle.std.specs.Prelude.{◌+◌, ◌<◌, ◌≤◌, length};
ghost use Rattle.shared_put_or_count.specs.Emits.{RoomFrom, Emits};
ghost use Rattle.b3d_spec.specs.Tables.{vertex_width};
ghost use Rattle.b3d_spec.specs.Rules.{row_limit};
ghost use Rattle.b3d_rows.specs.NextRow.{rows_from, RowCursorAt};
ghost use Rattle.b3d_compare_next_rows.specs.NextRows.{bytes_from, PutTurn};
ghost use Rattle.b3d_compare_tables.specs.Tables.{Comparable, table_bytes};

use b3d_compare_next_rows::Turn;
use b3d_rows_nodes::RowCursor;

// Puts or counts the entries of the next rows of the files `a` and `b` from `x` and `y` on, the first of them row `r` of table `k`: of all items of the open
// chunks where these have the same shape, else of one row. `p` and `q` are rows to read into.
fn put_rows(
    a: &[u8],
    b: &[u8],
    k: u32,
    r: u32,
    x: RowCursor,
    y: RowCursor,
    p: &mut [u32],
    q: &mut [u32],
    wet: bool,
    out: &mut [u8],
    at: usize,
) -> Turn
    requires x_bound { r + length (rows_from k a.now x) ≤ row_limit }
    requires le_k { (1 ≤ k) × (k ≤ 10) × RowCursorAt k a.now x × (0 < length (rows_from k a.now x)) × (vertex_width ≤ length p.old)
        × RowCursorAt k b.now y × (0 < length (rows_from k b.now y)) × (vertex_width ≤ length q.old)
        × RoomFrom wet (bytes_from k a.now b.now r x y) at out.old }
    ensures { PutTurn k r a.now b.now x y p.old q.old p.new q.new
        wet out.old at out.new result }
{
    let s = x.position;
    let t = y.position;
    let i = s.items;
    let j = t.items;
    if !b3d_compare_shapes::same_shape(k, i, j) {
        return b3d_compare_next_rows::put_turn(a, b, k, r, x, y, p, q, wet, out, at);
    }
    let run = b3d_compare_items::put_items(a, b, k, r, i, j, wet, out, at);
    let first = b3d_rows_past::past(x, run.bytes);
    let second = b3d_rows_past::past(y, run.bytes);
    Turn {
        first,
        second,
        rows: run.rows,
        next: run.next,
    }
}

// Puts or counts the entries of table `k`, which has this number of `rows` in both files `a` and `b`, 0 among them; `p` and `q` are rows to read into. Returns
// the place after them.
pub fn put_table(
    a: &[u8],
    b: &[u8],
    k: u32,
    rows: u32,
    p: &mut [u32],
    q: &mut [u32],
    wet: bool,
    out: &mut [u8],
    at: usize,
) -> usize
    requires { Comparable k rows a.now × Comparable k rows b.now × (rows ≤ row_limit) × (vertex_width ≤ length p.old) × (vertex_width ≤ length q.old)
        × RoomFrom wet (table_bytes k a.now b.now) at out.old }
    ensures { Emits wet (table_bytes k a.now b.now) out.old at out.new result }
{
    let mut x = b3d_rows::start(a, k);
    let mut y = b3d_rows::start(b, k);
    let mut next = at;
    // Stays a `while`: a turn compares as many rows as the open chunks have in common, or one where their shapes differ.
    let mut r: u32 = 0;
    while r < rows {
        let t = put_rows(a, b, k, r, x, y, p, q, wet, out, next);
        x = t.first;
        y = t.second;
        next = t.next;
        r += t.rows;
    }
    next
}
