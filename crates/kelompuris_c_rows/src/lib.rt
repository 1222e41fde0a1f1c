// What terminals call to read a table row by row with no table lent, as C functions. `rust/build-lib` puts them beside those of kelompuris_c into the one
// archive, include/kelompuris.h declares them. They promise what `start` and `next` of `b3d_rows_state` do, for every input.
ghost use Rattle.b3d_rows_state.specs.States.{StateStarts, StateNexts};

use b3d_rows_state::{RowGiven, RowState};

// Returns the state before the first row of a `table` of `file`, or that of no table.
#[unsafe(no_mangle)]
pub extern "C" fn kelompuris_b3d_rows_start(file: &[u8], table: u32) -> RowState
    ensures { StateStarts table file.now result }
{
    b3d_rows_state::start(file, table)
}

// Writes the next row of `file` from a `state` on into the start of `row`, and returns that it did and the state behind it.
#[unsafe(no_mangle)]
pub extern "C" fn kelompuris_b3d_rows_next(
    file: &[u8],
    state: RowState,
    row: &mut [u32],
) -> RowGiven
    ensures { StateNexts file.now state row.old row.new result }
{
    b3d_rows_state::next(file, state, row)
}
