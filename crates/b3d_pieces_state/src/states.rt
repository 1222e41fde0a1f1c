// What is held between two calls as numbers: from a state to what the judge holds, and back.
ghost use Rattle.std.specs.Prelude.{◌≡◌};
ghost use Rattle.b3d_pieces_state.specs.States.{now_by, judge_in, state_of};

use crate::PieceState;
use crate::records::{flag_of, open_of, record_of};
use b3d_pieces_header_steps::fresh;
use b3d_pieces_item_steps::Now;
use b3d_pieces_judge_step::Judge;
use b3d_pieces_judge_step::taking::nothing;
use b3d_pieces_spec::{NONE_KEPT, Part};
use b3d_spec::Tag;

// Returns what stands at the present place by the state `s`; for a kind of 4 or more, that all was read.
fn now_by(s: PieceState) -> Now
    ensures { result ≡ now_by s }
{
    let g = s.totals;
    let kept = s.kept;
    let inner = s.inner;
    let f = open_of(inner);
    let fixed = s.fixed == 1;
    if s.kind == 0 {
        return Now::Live(s.at, Part::Text(fixed, s.start), g, f);
    }
    if s.kind == 1 {
        let part = Part::Row(fixed, s.start, s.index, s.came, s.value, kept);
        return Now::Live(s.at, part, g, f);
    }
    if s.kind == 2 {
        return Now::Live(s.at, Part::Skip(s.start), g, f);
    }
    if s.kind == 3 {
        return Now::Fault(s.number, s.at);
    }
    Now::Over(g)
}

// Returns what the judge holds by the state `s`; every state stands for something.
pub fn judge_of(s: PieceState) -> Judge
    ensures { result ≡ judge_in s }
{
    let held = now_by(s);
    Judge {
        size: s.size,
        worth: s.worth,
        letters: s.letters,
        length: s.length,
        shut: s.shut == 1,
        depth: s.depth,
        now: held,
    }
}

// Returns the state of what the judge holds, `j`. A chunk that waits to be entered or left is said as if all was read: between two calls there is none.
pub fn state_of(j: Judge) -> PieceState
    ensures { result ≡ state_of j }
{
    let held = j.now;
    let shut = flag_of(j.shut);
    let none = fresh(Tag::BB3D, 0, 0, 0, 0);
    let inner = record_of(none);
    let g = nothing();
    let mut s = PieceState {
        kind: 4,
        number: 0,
        size: j.size,
        worth: j.worth,
        letters: j.letters,
        length: j.length,
        shut: shut,
        depth: j.depth,
        at: 0,
        fixed: 0,
        start: 0,
        index: 0,
        came: 0,
        value: 0,
        kept: NONE_KEPT,
        inner: inner,
        totals: g,
    };
    match held {
        Now::Live(at, part, g, f) => {
            let inner = record_of(f);
            s.at = at;
            s.inner = inner;
            s.totals = g;
            match part {
                Part::Text(fixed, start) => {
                    let set = flag_of(fixed);
                    s.kind = 0;
                    s.fixed = set;
                    s.start = start;
                    s
                }
                Part::Row(fixed, start, index, came, value, kept) => {
                    let set = flag_of(fixed);
                    s.kind = 1;
                    s.fixed = set;
                    s.start = start;
                    s.index = index;
                    s.came = came;
                    s.value = value;
                    s.kept = kept;
                    s
                }
                Part::Skip(end) => {
                    s.kind = 2;
                    s.start = end;
                    s
                }
            }
        }
        Now::Push(_, g, _, _) => {
            s.totals = g;
            s
        }
        Now::Pop(_, g) => {
            s.totals = g;
            s
        }
        Now::Fault(number, at) => {
            s.kind = 3;
            s.number = number;
            s.at = at;
            s
        }
        Now::Over(g) => {
            s.totals = g;
            s
        }
    }
}
