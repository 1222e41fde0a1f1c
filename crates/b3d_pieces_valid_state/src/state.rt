// The test of what is held, given the load of the row's chunks; and the same test with a row of words.
ghost use Rattle.std.specs.Prelude.{◌≡◌, ◌/◌, ◌<◌, ◌≤◌, length};
ghost use Rattle.b3d_pieces_judge_step.specs.Takes.{head_low};
ghost use Rattle.b3d_pieces_spec.specs.Row.{open_at, record_words};
ghost use Rattle.b3d_pieces_spec.specs.Limits.{most_counted, over_counted, lent_words};
ghost use Rattle.b3d_pieces_judge_step.specs.Runs.{CanRun};
ghost use Rattle.b3d_pieces_valid_record.specs.Tests.{Tests};
ghost use Rattle.b3d_pieces_valid_state.specs.Entry.{LiveTests, NowTests, StateTests};

use crate::loads::stack_rows_to_add;
use b3d_pieces_item_steps::Now;
use b3d_pieces_judge_step::Judge;
use b3d_pieces_spec::{MOST_AROUND, MOST_COUNTED, Open, Part, Totals};
use b3d_pieces_step::turning::pending;
use b3d_pieces_valid_record::loads::rows_to_add;
use b3d_pieces_valid_record::parts::{part_valid, sum_of, worth};

// Returns whether the invariant holds after `size` bytes at `at` in `f`, where `n` chunks stand around `f` and may still add `load` rows.
pub fn live_valid(
    at: usize,
    m: Part,
    g: Totals,
    f: Open,
    size: usize,
    n: usize,
    load: usize,
) -> bool
    requires { (size ≤ most_counted) × (load ≤ over_counted) }
    ensures { LiveTests at m g f size n load result }
{
    if part_valid(m, at, size) {
        let v = rows_to_add(f, n);
        let s = sum_of(g);
        return s + (v + load) <= at;
    }
    false
}

// Returns whether the invariant holds of `held` after `size` bytes, and no chunk waits to be entered or left, where the row's `n` chunks may still add `load`
// rows.
pub fn now_valid(held: Now, size: usize, n: usize, load: usize) -> bool
    requires { (size ≤ most_counted) × (load ≤ over_counted) }
    ensures { NowTests held size n load result }
{
    match held {
        Now::Live(at, m, g, f) => live_valid(at, m, g, f, size, n, load),
        Now::Push(_, _, _, _) => false,
        Now::Pop(_, _) => false,
        Now::Fault(_, _) => true,
        Now::Over(g) => sum_of(g) <= size,
    }
}

// Returns the number that the value of the present number of BB3D's header is below, after `size` bytes.
fn head_low(size: usize) -> usize
    requires { size < 8 }
    ensures { result ≡ head_low size }
{
    if size < 4 {
        return worth(size);
    }
    worth(size - 4)
}

// Returns whether `j` is as calls leave it, over any row whose chunks in use may still add `load` rows.
pub fn state_valid(j: Judge, load: usize) -> bool
    requires { load ≤ over_counted }
    ensures { StateTests j load result }
{
    let size = j.size;
    let n = j.depth;
    let now = j.now;
    if MOST_COUNTED < size {
        return false;
    }
    if MOST_AROUND < n {
        return false;
    }
    if size < 8 {
        if pending(now) {
            return false;
        }
        let w = head_low(size);
        return j.worth < w;
    }
    now_valid(now, size, n, load)
}

// Returns whether `j` and `row` are as calls leave them.
pub fn judge_valid(j: Judge, row: &[usize]) -> bool
    requires { lent_words ≤ length row.now }
    ensures { Tests result (CanRun j (length row.now / record_words) (open_at row.now)) }
{
    let n = j.depth;
    if MOST_AROUND < n {
        return false;
    }
    let load = stack_rows_to_add(row, n);
    state_valid(j, load)
}
