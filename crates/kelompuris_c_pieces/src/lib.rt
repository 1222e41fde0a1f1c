// The piece judge (E6) as C functions, which terminals call to hand a file over in pieces, with a lent row of records. `rust/build-lib` puts them into the
// one archive, include/kelompuris.h declares them. What they call stands in `b3d_pieces_records_tests`, `b3d_pieces_at_once` and `b3d_pieces_records_loop`. They
// ask nothing of the caller: with any state and any row they end.
#![tactic(auto)]

ghost use Rattle.std.specs.Prelude.{◌≡◌};
ghost use Rattle.b3d_pieces_words.specs.Called.{fresh_judge, PieceIs, CloseIs};
ghost use Rattle.b3d_pieces_records_loop.specs.Rounds.{numbers};
ghost use Rattle.b3d_pieces_state.specs.States.{state_of};

use b3d_pieces_at_once::at_once;
use b3d_pieces_records_loop::PieceClosed;
use b3d_pieces_records_loop::closing::closed;
use b3d_pieces_records_loop::rounds::{first, last, next};
use b3d_pieces_records_tests::{weigh_first, weigh_next};
use b3d_pieces_state::states::state_of;
use b3d_pieces_state::{OpenRecord, PieceFed, PieceState};
use b3d_pieces_words::calls::start;

// Returns the state before the first piece of a file.
#[unsafe(no_mangle)]
pub extern "C" fn kelompuris_b3d_pieces_start() -> PieceState
    ensures { result ≡ state_of fresh_judge }
{
    let j = start();
    state_of(j)
}

// Takes the next `bytes` of the file. Refuses with 11 and the size 19 if `row` has fewer than 19 records; then with 15 at place 0 after the close, or if
// `state` and `row` are not as calls leave them. A refused call gives `state` back and changes no record.
#[unsafe(no_mangle)]
pub extern "C" fn kelompuris_b3d_pieces_piece(
    state: PieceState,
    row: &mut [OpenRecord],
    bytes: &[u8],
) -> PieceFed
    ensures { PieceIs numbers state row.old bytes.now result.number result.place result.state row.new }
{
    let mut w = weigh_first(state, row.len());
    while w.go {
        w = weigh_next(w, row[w.get]);
    }
    let x = at_once(w, state, bytes);
    if x.done {
        return x.fed;
    }
    let mut t = first(x, bytes.len());
    while t.go {
        t = next(t, row[t.get], bytes);
        row[t.put] = t.rec;
    }
    last(t)
}

// Closes the file and answers what the reader, lent ample tables, says of all bytes joined. Refuses as a piece does, and then gives `state` back.
#[unsafe(no_mangle)]
pub extern "C" fn kelompuris_b3d_pieces_close(state: PieceState, row: &[OpenRecord]) -> PieceClosed
    ensures { CloseIs numbers state row.now result.answer result.state }
{
    let mut w = weigh_first(state, row.len());
    while w.go {
        w = weigh_next(w, row[w.get]);
    }
    closed(w, state)
}
