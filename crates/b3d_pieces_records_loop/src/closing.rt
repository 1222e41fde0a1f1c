// What the close answers after the records were weighed.
ghost use Rattle.b3d_pieces_records_loop.specs.Rounds.{CloseReady, ClosedIs};

use crate::PieceClosed;
use b3d_pieces_answers::{closing_answer, closing_of, refused};
use b3d_pieces_records_tests::{RowWeight, first_number, first_place};
use b3d_pieces_state::PieceState;
use b3d_pieces_state::states::{judge_of, state_of};

// Returns what the close answers after the row was weighed as `w`, `state` being what was handed in: a refusal gives it back.
pub fn closed(w: RowWeight, state: PieceState) -> PieceClosed
    requires { CloseReady w }
    ensures { ClosedIs w state result }
{
    let j = judge_of(state);
    let number = first_number(w, j);
    if number == 0 {
        let verdict = closing_of(j);
        let answer = closing_answer(verdict);
        let mut shut = j;
        shut.shut = true;
        let state = state_of(shut);
        return PieceClosed { answer, state };
    }
    let place = first_place(number);
    let answer = refused(number, place as usize);
    PieceClosed { answer, state }
}
