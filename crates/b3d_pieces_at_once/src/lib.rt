// The bytes of a piece that can be taken at once from a caller's state, by its numbers alone. Of the state only the numbers that these bytes change are
// written anew; what the judge holds is made for the test of the state only. A call that ends here is cheap.
#![tactic(auto)]

ghost use Rattle.std.specs.Prelude.{◌≡◌, ◌+◌, ◌≤◌, eqb, length};
ghost use Rattle.b3d_pieces_spec.specs.Limits.{most_counted};
ghost use Rattle.b3d_pieces_spec.specs.declared.Part.TheVariants.{Text as aText, Row as aRow, Skip as aSkip};
ghost use Rattle.b3d_pieces_skip.specs.Passes.{PassReady};
ghost use Rattle.b3d_pieces_state.specs.States.{judge_in};
ghost use Rattle.b3d_pieces_at_once.specs.Onces.{turn_at, counted_by, advanced_by, rows_by, PartReady, MovedIs, OnceReady, OnceIs};

use b3d_pieces_records_tests::{RowWeight, first_number, first_place};
use b3d_pieces_skip_lengths::{before, room, until_zero};
use b3d_pieces_skip_numbers::RowPlace;
use b3d_pieces_skip_numbers::numbers::gather;
use b3d_pieces_skip_rows::judging::row_rules;
use b3d_pieces_skip_rows::rows::rows;
use b3d_pieces_state::records::open_of;
use b3d_pieces_state::states::judge_of;
use b3d_pieces_state::{PieceFed, PieceState};

// What a call did at once: `done`, whether nothing is left to do; `at`, how many bytes were taken; `fed`, the answer if `done` is set, else with the state
// after these bytes.
#[derive(Clone, Copy)]
pub struct AtOnce {
    pub done: bool,
    pub at: usize,
    pub fed: PieceFed,
}

// Returns `state` after `n` bytes that are only counted.
fn counted(state: PieceState, n: usize) -> PieceState
    requires { state.size + n ≤ most_counted }
    ensures { result ≡ counted_by state n }
{
    let mut s = state;
    s.size = state.size + n;
    s
}

// Returns `state` after `n` bytes that change only the present place.
fn advanced(state: PieceState, n: usize) -> PieceState
    requires { (state.size + n ≤ most_counted) × (state.at + n ≤ most_counted) }
    ensures { result ≡ advanced_by state n }
{
    let mut s = state;
    s.size = state.size + n;
    s.at = state.at + n;
    s
}

// Returns `state` with `y` as the place in its rows, which is `y.from` bytes on.
fn rows_on(state: PieceState, y: RowPlace) -> PieceState
    requires { state.size + y.from ≤ most_counted }
    ensures { result ≡ rows_by state y }
{
    let kept = y.kept;
    let mut inner = state.inner;
    inner.count = y.count;
    let mut s = state;
    s.size = state.size + y.from;
    s.at = y.at;
    s.start = y.start;
    s.index = y.i;
    s.came = y.j;
    s.value = y.acc;
    s.kept = kept;
    s.inner = inner;
    s
}

// Takes at most `n` bytes of the chunk that `state` passes over, but not its last byte.
fn skip_on(state: PieceState, bytes: &[u8], n: usize) -> PieceState
    requires { PartReady state bytes.now n (aSkip state.start) × (state.kind ≡ 2) }
    ensures { MovedIs state bytes.now result }
{
    let k = before(state.at, state.start, n);
    advanced(state, k)
}

// Takes at most `n` bytes of the text that stands in `state`, up to its zero or to the last byte of its chunk.
fn text_on(state: PieceState, bytes: &[u8], n: usize) -> PieceState
    requires { PartReady state bytes.now n (aText (eqb state.fixed 1) state.start) × (state.kind ≡ 0) }
    ensures { MovedIs state bytes.now result }
{
    let inner = state.inner;
    let f = open_of(inner);
    let most = before(state.at, f.end, n);
    let k = until_zero(bytes, 0, most);
    advanced(state, k)
}

// Takes at most `n` bytes of the rows that stand in `s`. Bytes that do not end the present number are only gathered.
fn row_on(s: PieceState, bytes: &[u8], n: usize) -> PieceState
    requires { PartReady s bytes.now n (aRow (eqb s.fixed 1) s.start s.index s.came s.value s.kept) × (s.kind ≡ 1) }
    ensures { MovedIs s bytes.now result }
{
    let g = s.totals;
    let inner = s.inner;
    let kept = s.kept;
    let f = open_of(inner);
    let fixed = s.fixed == 1;
    let x = RowPlace {
        from: 0,
        at: s.at,
        start: s.start,
        i: s.index,
        j: s.came,
        acc: s.value,
        kept: kept,
        count: f.count,
    };
    if n + s.came < 4 {
        let z = gather(x, bytes, n);
        return rows_on(s, z);
    }
    let q = row_rules(fixed, g, f);
    let y = rows(x, q, bytes, n);
    rows_on(s, y)
}

// Takes as many of `bytes` as can be taken at once; after a refusal and after the end of BB3D they are only counted.
fn moved(state: PieceState, bytes: &[u8]) -> PieceState
    requires { PassReady (turn_at (judge_in state) 0 (length bytes.now)) bytes.now }
    ensures { MovedIs state bytes.now result }
{
    let n = room(state.size, bytes.len());
    if n == 0 {
        return state;
    }
    let kind = state.kind;
    match kind {
        0 => text_on(state, bytes, n),
        1 => row_on(state, bytes, n),
        2 => skip_on(state, bytes, n),
        _ => counted(state, n),
    }
}

// Tests `state` and the row that was weighed as `w`, and takes as many of `bytes` as can be taken at once. A refusal gives `state` back.
pub fn at_once(w: RowWeight, state: PieceState, bytes: &[u8]) -> AtOnce
    requires { OnceReady w state }
    ensures { OnceIs w state bytes.now result }
{
    let j = judge_of(state);
    let number = first_number(w, j);
    if number == 0 {
        let next = moved(state, bytes);
        let at = next.size - state.size;
        let fed = PieceFed {
            number: 0,
            place: 0,
            state: next,
        };
        return AtOnce {
            done: bytes.len() <= at,
            at: at,
            fed: fed,
        };
    }
    let place = first_place(number);
    let fed = PieceFed {
        number: number,
        place: place,
        state: state,
    };
    AtOnce {
        done: true,
        at: 0,
        fed: fed,
    }
}
