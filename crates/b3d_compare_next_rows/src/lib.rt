// What differs between the next row of a table in two files, with no table lent, as entries that are put into a lent output from a place on, or only counted.
#![tactic(auto)]

ghost use Rattle.std.specs.Prelude.{◌<◌, ◌≤◌, length};
ghost use Rattle.shared_put_or_count.specs.Emits.{RoomFrom};
ghost use Rattle.b3d_spec.specs.Tables.{vertex_width};
ghost use Rattle.b3d_rows.specs.NextRow.{rows_from, RowCursorAt};
ghost use Rattle.b3d_compare_next_rows.specs.NextRows.{bytes_from, PutTurn};

use b3d_rows_nodes::RowCursor;

// Where a turn ends: the places behind some rows of both files, how many these are, and the place in the output behind their entries.
#[derive(Clone, Copy)]
pub struct Turn {
    pub first: RowCursor,
    pub second: RowCursor,
    pub rows: u32,
    pub next: usize,
}

// Puts or counts the entries of the next row of the files `a` and `b` from `x` and `y` on, row `r` of table `k`; `p` and `q` are rows to read into.
pub fn put_turn(
    a: &[u8],
    b: &[u8],
    k: u32,
    r: u32,
    x: RowCursor,
    y: RowCursor,
    p: &mut [u32],
    q: &mut [u32],
    wet: bool,
    out: &mut [u8],
    at: usize,
) -> Turn
    requires { (1 ≤ k) × (k ≤ 10) × RowCursorAt k a.now x × (0 < length (rows_from k a.now x)) × (vertex_width ≤ length p.old)
        × RowCursorAt k b.now y × (0 < length (rows_from k b.now y)) × (vertex_width ≤ length q.old)
        × RoomFrom wet (bytes_from k a.now b.now r x y) at out.old }
    ensures { PutTurn k r a.now b.now x y p.old q.old p.new q.new
        wet out.old at out.new result }
{
    let first = b3d_rows::next_row(a, k, x, p);
    let second = b3d_rows::next_row(b, k, y, q);
    let next = b3d_compare_rows::put_row(a, b, p, q, wire::size(k), r, wet, out, at);
    Turn {
        first,
        second,
        rows: 1,
        next,
    }
}
