// The three calls. 11 with size 19 where fewer records are lent; then 15 at place 0 after the close, or for a state and a row that do not keep
// what calls keep: these leave the state as it was, and they and the close change no record.
ghost use Rattle.std.specs.Prelude.{◌≡◌};
ghost use Rattle.b3d_pieces_words.specs.Called.{words, fresh_judge, PieceIs, CloseIs};

use crate::{Closed, Fed};
use b3d_pieces_answers::{closing_answer, closing_of, refused};
use b3d_pieces_item_steps::Now;
use b3d_pieces_judge_step::Judge;
use b3d_pieces_judge_step::taking::nothing;
use b3d_pieces_spec::{LENT_WORDS, RECORDS, RECORDS_NEEDED};
use b3d_pieces_valid_state::state::judge_valid;
use b3d_pieces_words_loop::run;
use layout::refusals;

// Returns the state before the first piece of a file.
pub fn start() -> Judge
    ensures { result ≡ fresh_judge }
{
    let g = nothing();
    Judge {
        size: 0,
        worth: 0,
        letters: 0,
        length: 0,
        shut: false,
        depth: 0,
        now: Now::Over(g),
    }
}

// Takes the next bytes of the file, `piece`; a piece of no bytes is taken too. Refuses with 11 and the size 19 if `row` has fewer than 19 records; then with
// 15 at place 0 after the close, or if `state` and `row` are not as calls leave them. A refused call gives `state` back and changes no record.
pub fn judge_piece(state: Judge, row: &mut [usize], piece: &[u8]) -> Fed
    ensures { PieceIs words state row.old piece.now result.number result.place result.judge row.new }
{
    if row.len() < LENT_WORDS {
        return Fed {
            number: refusals::TOO_SHORT,
            place: RECORDS_NEEDED,
            judge: state,
        };
    }
    if state.shut {
        return Fed {
            number: refusals::CLOSED,
            place: 0,
            judge: state,
        };
    }
    if judge_valid(state, row) {
        let x = run(state, row, piece);
        return Fed {
            number: 0,
            place: 0,
            judge: x,
        };
    }
    Fed {
        number: refusals::CLOSED,
        place: 0,
        judge: state,
    }
}

// Closes the file and answers what the reader, lent ample tables, says of all bytes joined. Refuses as `judge_piece` does, and then gives `state` back.
pub fn judge_close(state: Judge, row: &[usize]) -> Closed
    ensures { CloseIs words state row.now result.answer result.judge }
{
    if row.len() < LENT_WORDS {
        let few = refused(refusals::TOO_SHORT, RECORDS);
        return Closed {
            answer: few,
            judge: state,
        };
    }
    let late = refused(refusals::CLOSED, 0);
    let shut = state.shut;
    if shut {
        return Closed {
            answer: late,
            judge: state,
        };
    }
    if judge_valid(state, row) {
        let verdict = closing_of(state);
        let said = closing_answer(verdict);
        let mut x = state;
        x.shut = true;
        return Closed {
            answer: said,
            judge: x,
        };
    }
    Closed {
        answer: late,
        judge: state,
    }
}
