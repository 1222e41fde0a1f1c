// What the chunks of a row of words may still add to the totals, and whether they can be open there.
ghost use Rattle.std.specs.Prelude.{◌≤◌, length};
ghost use Rattle.b3d_pieces_spec.specs.Row.{open_at};
ghost use Rattle.b3d_pieces_spec.specs.Limits.{most_around, lent_words};
ghost use Rattle.b3d_pieces_valid_state.specs.Entry.{RowFits};

use b3d_pieces_spec::{MOST_COUNTED, OVER_COUNTED};
use b3d_pieces_valid_record::loads::rows_to_add;
use b3d_pieces_words_row::open_at;

// Returns how many rows the first `n` chunks of `row` may still add. Returns 16,777,218 if they are more than 16,777,217, or if a file cannot have these
// chunks open.
pub fn stack_rows_to_add(row: &[usize], n: usize) -> usize
    requires { (n ≤ most_around) × (lent_words ≤ length row.now) }
    ensures { RowFits (open_at row.now) n result }
{
    let mut total: usize = 0;
    for i in 0..n {
        let f = open_at(row, i);
        let v = rows_to_add(f, i);
        let sum = total + v;
        if MOST_COUNTED < sum {
            return OVER_COUNTED;
        }
        total = sum;
    }
    total
}
