// The KEYS and the TRIS of the writer: a chunk for each key list or triangle set, its items the next rows of the table of keys or triangles.
#![tactic(auto)]

ghost use Rattle.std.specs.Prelude.{◌+◌, ◌*◌, ◌/◌, ◌<◌, ◌≤◌, length, drop};
ghost use Rattle.shared_output.specs.Writing.{Room, Put};
ghost use Rattle.b3d_spec.specs.Tables.{key_width};
ghost use Rattle.b3d_write_row_runs.specs.Lent.{rows_in, rows_from};
ghost use Rattle.b3d_write_item_lists.specs.Runs.{list_bytes, run_width, run_bytes, runs_bytes};
ghost use Rattle.b3d_check_spec.specs.CellCounts.{end_of};

use b3d_spec::{columns, letters};
use b3d_write_items::{number, put_set};
use b3d_write_keys::put_key_rows;

// Writes a KEYS of `flags` and the `count` keys from row `first` on. Returns its size.
fn put_list(flags: u32, keys: &[u32], first: usize, count: usize, out: &mut [u8]) -> usize
    requires count_in_bounds { first + count ≤ length keys.now / key_width }
    requires room { Room (list_bytes flags (rows_from key_width keys.now first count)) out.old }
    ensures { Put (list_bytes flags (rows_from key_width keys.now first count)) out.old out.new result }
{
    let n = put_key_rows(flags, keys, first, count, &mut out[12..]);
    shared_output::put_opening(out, letters::KEYS, n, flags);
    n + 12
}

// Writes a KEYS (`keys`) or a TRIS of its number `word`, flags or brush, and the `n` items from row `first` on. Returns its size.
fn put_run(keys: bool, word: u32, items: &[u32], first: usize, n: usize, out: &mut [u8]) -> usize
    requires n_in_bounds { first + n ≤ length items.now / run_width keys }
    requires room { Room (run_bytes keys word (rows_from (run_width keys) items.now first n)) out.old }
    ensures { Put (run_bytes keys word (rows_from (run_width keys) items.now first n)) out.old out.new result }
{
    if keys {
        return put_list(word, items, first, n, out);
    }
    put_set(word, items, first, n, out)
}

// Writes a KEYS (`keys`) or a TRIS for each of the `count` rows of `rows` from row `first` on, their items following each other from row `start` of `items`
// on. Returns the size; 0 where `count` is 0.
pub fn put_runs(
    keys: bool,
    rows: &[u32],
    first: usize,
    count: usize,
    items: &[u32],
    start: usize,
    out: &mut [u8],
) -> usize
    requires count_in_bounds { first + count ≤ length rows.now / 4 }
    requires count_in_bounds_2 { end_of start (rows_from 4 rows.now first count) ≤ length items.now / run_width keys }
    requires room { Room (runs_bytes keys (rows_from 4 rows.now first count) (drop start (rows_in (run_width keys) items.now))) out.old }
    ensures { Put (runs_bytes keys (rows_from 4 rows.now first count) (drop start (rows_in (run_width keys) items.now)))
        out.old out.new result }
{
    let mut at: usize = 0;
    let mut next = start;
    for i in 0..count {
        let row = 4 * (first + i);
        let n = number(rows, row + columns::GROUP_COUNT);
        let size = put_run(keys, rows[row + 1], items, next, n, &mut out[at..]);
        at += size;
        next += n;
    }
    at
}
