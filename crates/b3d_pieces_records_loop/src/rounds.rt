// The first round, the next, and what a piece answers after the last.
ghost use Rattle.b3d_pieces_records_loop.specs.Rounds.{FirstRoundIs, TurnReady, TurnedIs, LastIs};

use crate::Round;
use b3d_pieces_at_once::AtOnce;
use b3d_pieces_header_steps::fresh;
use b3d_pieces_judge_step::Turn;
use b3d_pieces_judge_step::steps::step;
use b3d_pieces_skip::passing::pass;
use b3d_pieces_state::records::{open_of, record_of};
use b3d_pieces_state::states::{judge_of, state_of};
use b3d_pieces_state::{OpenRecord, PieceFed};
use b3d_pieces_step::turning::slot;
use b3d_spec::Tag;

// Returns the first round over a piece of `bytes` bytes, after those that `x` took at once.
pub fn first(x: AtOnce, bytes: usize) -> Round
    ensures { FirstRoundIs x bytes result }
{
    let fed = x.fed;
    let state = fed.state;
    let j = judge_of(state);
    let get = slot(j.depth);
    let blank = fresh(Tag::BB3D, 0, 0, 0, 0);
    let rec = record_of(blank);
    let t = Turn {
        judge: j,
        at: x.at,
        end: bytes,
        get: get,
        put: 0,
        rec: blank,
    };
    Round {
        go: x.at < bytes,
        get: get,
        put: 0,
        rec: rec,
        turn: t,
    }
}

// Takes the bytes that can be taken at once, then makes a turn at the next byte, if one is left, with `rec` as the record read.
pub fn next(t: Round, rec: OpenRecord, bytes: &[u8]) -> Round
    requires { TurnReady t rec bytes.now }
    ensures { TurnedIs t rec bytes.now result }
{
    let turn = t.turn;
    let y = pass(turn, bytes);
    let at = y.at;
    if at < y.end {
        let f = open_of(rec);
        let x = step(y, f, bytes[at]);
        let f2 = x.rec;
        let back = record_of(f2);
        return Round {
            go: x.at < x.end,
            get: x.get,
            put: x.put,
            rec: back,
            turn: x,
        };
    }
    Round {
        go: false,
        get: y.get,
        put: t.get,
        rec: rec,
        turn: y,
    }
}

// Returns what a piece answers after the last round.
pub fn last(t: Round) -> PieceFed
    ensures { LastIs t result }
{
    let turn = t.turn;
    let j = turn.judge;
    let next = state_of(j);
    PieceFed {
        number: 0,
        place: 0,
        state: next,
    }
}
