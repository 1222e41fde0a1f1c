// The rows of any table of a file one after the other, by value, with no table lent: `begin` and `next_or_end` on any bytes, `start` and `next_row` where it is
// known that nodes nest no deeper than 16 and that a row is to come.
#![tactic(auto)]

ghost use Rattle.std.specs.Prelude.{◌≡◌, ◌<◌, ◌≤◌, [], length};
ghost use Rattle.b3d_spec.specs.Tables.{vertex_width};
ghost use Rattle.b3d_spec_plain_rows.specs.Flat.{flat_at};
ghost use Rattle.b3d_rows_nodes.specs.NextNode.{Shallow};
ghost use Rattle.b3d_rows.specs.NextRow.{rows_from, behind_row, FirstItems, PartAt, RowCursorAt, Begins, Starts, PartNexts, RowNexts, RowNext};

use b3d_rows_nodes::{NextCursor, OpenNodes, RowCursor};
use b3d_rows_open_items::OpenItems;
use b3d_rows_positions::Position;
use b3d_spec::LEVELS;
use wire::Cursor;

// Returns no items, of `words` words.
fn no_items(words: usize) -> OpenItems
    ensures { result ≡ record { rest = record { at = 12; end = 12 }; words = words; flags = 0; sets = 0; size = 0 } }
{
    OpenItems {
        rest: Cursor { at: 12, end: 12 },
        words,
        flags: 0,
        sets: 0,
        size: 0,
    }
}

// Returns the items that the rows of table `k` begin with: for 1 and 2 all textures or brushes of `file`, none for another.
fn first_items(file: &[u8], k: u32) -> OpenItems
    requires { 1 ≤ k }
    ensures { FirstItems k file.now result }
{
    if k == 1 {
        return b3d_rows_items::open_textures(file);
    }
    if k == 2 {
        return b3d_rows_items::open_brushes(file);
    }
    if k == 8 {
        return no_items(2);
    }
    if k == 10 {
        return no_items(1);
    }
    no_items(3)
}

// Returns the cursor before the first row of table `k` of `file`.
pub fn begin(file: &[u8], k: u32) -> RowCursor
    requires { (1 ≤ k) × (k ≤ 10) × (12 ≤ length file.now) × (length file.now < 0x100000000) }
    ensures { Begins k file.now result }
{
    let items = first_items(file, k);
    let counts = b3d_spec::START;
    RowCursor {
        position: Position {
            at: 12,
            inner: Cursor { at: 12, end: 12 },
            items,
            counts,
        },
        path: OpenNodes {
            depth: 0,
            ends: [0; LEVELS],
            nodes: [0; LEVELS],
        },
    }
}

// Returns the cursor before the first row of table `k` of `file`, in which no node stands in more than 15 others.
pub fn start(file: &[u8], k: u32) -> RowCursor
    requires { (1 ≤ k) × (k ≤ 10) × (12 ≤ length file.now) × (length file.now < 0x100000000) × Shallow 0 [] (flat_at file.now 12) }
    ensures { Starts k file.now result }
{
    begin(file, k)
}

// Writes the next row of table `k`, which is 4 to 10, into the start of `row` and returns the position behind it. The cells behind the row stay. Where no row
// is to come, `row` stays, and the answer is `None`.
fn next_part(file: &[u8], k: u32, x: Position, row: &mut [u32]) -> Option<Position>
    requires { (4 ≤ k) × (k ≤ 10) × PartAt k file.now x × (vertex_width ≤ length row.old) }
    ensures { PartNexts k file.now x row.old row.new result }
{
    if k == 4 {
        return b3d_rows_chunks::next_mesh(file, x, row);
    }
    if k == 6 {
        return b3d_rows_chunks::next_set(file, x, row);
    }
    if k == 9 {
        return b3d_rows_chunks::next_list(file, x, row);
    }
    b3d_rows_items::next_item(file, k, x, row)
}

// Returns the cursor `x` at the position `n`; `x` itself, and that no row is given, where `n` is `None`.
fn behind(x: RowCursor, n: Option<Position>) -> NextCursor
    ensures { result ≡ behind_row x n }
{
    let Some(position) = n else {
        return NextCursor {
            given: false,
            cursor: x,
        };
    };
    let path = x.path;
    NextCursor {
        given: true,
        cursor: RowCursor { position, path },
    }
}

// Writes the next row of table `k` into the start of `row` and returns the cursor behind it. The cells behind the row stay. Where no row is to come, `row` and
// the cursor stay; in table 3 a node that stands in 16 others ends the rows.
pub fn next_or_end(file: &[u8], k: u32, x: RowCursor, row: &mut [u32]) -> NextCursor
    requires { (k ≤ 10) × RowCursorAt k file.now x × (vertex_width ≤ length row.old) }
    ensures { RowNexts k file.now x row.old row.new result }
{
    let position = x.position;
    let path = x.path;
    if k <= 2 {
        let n = b3d_rows_items::next_text(file, k, position, row);
        return behind(x, n);
    }
    if k == 3 {
        return b3d_rows_nodes::next_node(file, position, path, row);
    }
    let n = next_part(file, k, position, row);
    behind(x, n)
}

// Writes the next row of table `k`, which is to come, into the start of `row` and returns the cursor behind it. The cells behind the row stay.
pub fn next_row(file: &[u8], k: u32, x: RowCursor, row: &mut [u32]) -> RowCursor
    requires { (k ≤ 10) × RowCursorAt k file.now x × (0 < length (rows_from k file.now x)) × (vertex_width ≤ length row.old) }
    ensures { RowNext k file.now x row.old row.new result }
{
    let n = next_or_end(file, k, x, row);
    n.cursor
}
