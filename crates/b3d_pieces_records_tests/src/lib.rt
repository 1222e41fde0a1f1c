// The test of the state and the row that a caller hands to the piece judge. The row is not at hand: its records in use are weighed one after the other, and of
// them only a few numbers are carried; then the state is tested with their weight.
#![tactic(auto)]

ghost use Rattle.std.specs.Prelude.{◌≤◌, ◌≡◌};
ghost use Rattle.b3d_pieces_spec.specs.Limits.{over_counted};
ghost use Rattle.b3d_pieces_records_tests.specs.Weights.{resting as restingOf, FirstWeighs, WeighReady, WeighIs, NumberIs, place_of};

use b3d_pieces_judge_step::Judge;
use b3d_pieces_spec::{MOST_AROUND, MOST_COUNTED, OVER_COUNTED, RECORDS, RECORDS_NEEDED};
use b3d_pieces_state::records::open_of;
use b3d_pieces_state::{OpenRecord, PieceState};
use b3d_pieces_valid_record::loads::rows_to_add;
use b3d_pieces_valid_state::state::state_valid;
use layout::refusals;

// The weight of a row's first records: `go`, whether the record at `get` is to be weighed next; `depth`, how many are in use; `records`, how many the row has;
// `load`, the rows that those before `get` may still add, or 16,777,218 if these are too many or a file cannot have these chunks open.
#[derive(Clone, Copy)]
pub struct RowWeight {
    pub go: bool,
    pub get: usize,
    pub depth: usize,
    pub records: usize,
    pub load: usize,
}

// Returns the weight of no record, with none to be weighed, where `depth` of `records` records are in use.
fn resting(depth: usize, records: usize) -> RowWeight
    ensures { result ≡ restingOf depth records }
{
    RowWeight {
        go: false,
        get: 0,
        depth: depth,
        records: records,
        load: 0,
    }
}

// Returns the weight of no record of a row of `records` records, with `state` handed in. Nothing is to be weighed if these are fewer than 19, or if more than
// 18 are in use: such a call is refused whatever they weigh.
pub fn weigh_first(state: PieceState, records: usize) -> RowWeight
    ensures { FirstWeighs state records result }
{
    let depth = state.depth;
    if records < RECORDS {
        return resting(depth, records);
    }
    if MOST_AROUND < depth {
        return resting(depth, records);
    }
    RowWeight {
        go: 0 < depth,
        get: 0,
        depth: depth,
        records: records,
        load: 0,
    }
}

// Returns the weight of the records weighed by `w` and of the next one, `rec`.
pub fn weigh_next(w: RowWeight, rec: OpenRecord) -> RowWeight
    requires { WeighReady w }
    ensures { WeighIs w rec result }
{
    let f = open_of(rec);
    let v = rows_to_add(f, w.get);
    let sum = w.load + v;
    if MOST_COUNTED < sum {
        return RowWeight {
            go: false,
            get: w.get,
            depth: w.depth,
            records: w.records,
            load: OVER_COUNTED,
        };
    }
    RowWeight {
        go: w.get + 1 < w.depth,
        get: w.get + 1,
        depth: w.depth,
        records: w.records,
        load: sum,
    }
}

// Returns how a call with `j` held and a row of the weight `w` begins: 11 if the row has fewer than 19 records; then 15 after the close, or if `j` and the row
// are not as calls leave them; else 0.
pub fn first_number(w: RowWeight, j: Judge) -> u32
    requires { w.load ≤ over_counted }
    ensures { NumberIs w j result }
{
    if w.records < RECORDS {
        return refusals::TOO_SHORT;
    }
    if j.shut {
        return refusals::CLOSED;
    }
    if MOST_AROUND < j.depth {
        return refusals::CLOSED;
    }
    if state_valid(j, w.load) {
        return 0;
    }
    refusals::CLOSED
}

// Returns the place of a call that begins with `number`: with 11 it is 19, the records needed, else 0.
pub fn first_place(number: u32) -> u32
    ensures { result ≡ place_of number }
{
    if number == refusals::TOO_SHORT {
        return RECORDS_NEEDED;
    }
    0
}
