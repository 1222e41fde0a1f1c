// The loop over a piece's bytes, by value: what it begins with, and a turn. Whoever holds the row reads the record at `get` before a turn
// and writes `rec` at `put` after it.
ghost use Rattle.std.specs.Prelude.{◌≡◌, ◌<◌};
ghost use Rattle.b3d_pieces_step.specs.Turns.{pends};
ghost use Rattle.b3d_pieces_judge_step.specs.Takes.{TakeReady};
ghost use Rattle.b3d_pieces_judge_step.specs.Loops.{Begins, next_at, StepIs};

use crate::taking::take;
use crate::{Judge, Turn};
use b3d_pieces_header_steps::fresh;
use b3d_pieces_item_steps::Now;
use b3d_pieces_spec::Open;
use b3d_pieces_step::turning::{pending, slot};
use b3d_spec::Tag;

// Returns the turn at the beginning of a piece of `bytes` bytes, with `j` held.
pub fn begin(j: Judge, bytes: usize) -> Turn
    ensures { Begins j bytes result }
{
    let depth = j.depth;
    let get = slot(depth);
    let rec = fresh(Tag::BB3D, 0, 0, 0, 0);
    Turn {
        judge: j,
        at: 0,
        end: bytes,
        get: get,
        put: 0,
        rec: rec,
    }
}

// Returns the place of the next byte to take: `at` while chunks are entered or left, else the one after it.
fn next_at(now: Now, at: usize) -> usize
    requires { at < 18446744073709551615 }
    ensures { result ≡ next_at (pends now) at }
{
    if pending(now) {
        return at;
    }
    at + 1
}

// Makes a turn with the byte `b` at the turn's place and the record `rec` read.
pub fn step(t: Turn, rec: Open, b: u8) -> Turn
    requires { TakeReady t.judge rec × (t.at < t.end) }
    ensures { StepIs t rec b result }
{
    let j = t.judge;
    let x = take(j, rec, b);
    let next = x.judge;
    let back = x.rec;
    let now = next.now;
    let at = next_at(now, t.at);
    let get = slot(next.depth);
    Turn {
        judge: next,
        at: at,
        end: t.end,
        get: get,
        put: x.put,
        rec: back,
    }
}
