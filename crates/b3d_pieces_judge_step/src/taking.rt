// What a turn does to what is held between two pieces: a byte of BB3D's header, or a turn of the machine.
ghost use Rattle.std.specs.Prelude.{◌≡◌, ◌+◌, ◌<◌, false};
ghost use Rattle.b3d_pieces_spec.specs.Close.{nothing as nothingOf};
ghost use Rattle.b3d_pieces_judge_step.specs.Takes.{head_low, head_worth, TakeReady, BodyReady, TakeIs};
ghost use Rattle.b3d_pieces_step.specs.Turns.{pends};

use crate::{Judge, Taken};
use b3d_pieces_body_steps::enter;
use b3d_pieces_byte_steps::bytes::gathered;
use b3d_pieces_header_steps::fresh;
use b3d_pieces_spec::{Open, Totals};
use b3d_pieces_step::turning::{pending, slot, turn};
use b3d_spec::{LEVELS, START, Tag};
use layout::MOST_BYTES;

// Returns the value of the present number of BB3D's header after `size` bytes, worth `worth`, and one more, `b`.
fn head_number(size: usize, worth: usize, b: u8) -> usize
    requires { (size < 8) × (worth < head_low size) × (worth < 16777216) }
    ensures { (result ≡ head_worth size worth b) × (result < 4294967296) }
{
    if size < 4 {
        return gathered(size, worth, b);
    }
    gathered(size - 4, worth, b)
}

// Returns the totals before anything was counted.
pub fn nothing() -> Totals
    ensures { result ≡ nothingOf }
{
    let rows = START;
    Totals {
        version: 0,
        slots: 0,
        textures: 0,
        brushes: 0,
        own: 0,
        told: 0,
        below: 0,
        rows: rows,
    }
}

// Takes byte `b` of BB3D's header; after the eighth the body of BB3D begins. The record `rec` goes back as it was.
fn head_turn(j: Judge, rec: Open, b: u8) -> Taken
    requires { TakeReady j rec × (j.size < 8) × (pends j.now ≡ false) }
    ensures { TakeIs j rec b result }
{
    let size = j.size;
    let depth = j.depth;
    let put = slot(depth);
    let v = head_number(size, j.worth, b);
    if size == 7 {
        let f = fresh(Tag::BB3D, 0, 8 + v, LEVELS, 0);
        let g = nothing();
        let first = enter(8, g, f);
        let x = Judge {
            size: size + 1,
            worth: 0,
            letters: j.letters,
            length: v,
            shut: j.shut,
            depth: 0,
            now: first,
        };
        return Taken { judge: x, put, rec };
    }
    let mut x = j;
    x.size = size + 1;
    if size == 3 {
        x.worth = 0;
        x.letters = v;
        return Taken { judge: x, put, rec };
    }
    x.worth = v;
    Taken { judge: x, put, rec }
}

// Makes a turn of the machine with byte `b` and the record `rec` read, which takes `came` bytes: 0 while chunks are entered or left, else 1.
fn body_turn(j: Judge, rec: Open, b: u8, came: usize) -> Taken
    requires { TakeReady j rec × BodyReady j came }
    ensures { TakeIs j rec b result }
{
    let now = j.now;
    let depth = j.depth;
    let y = turn(now, depth, rec, b);
    let next = y.now;
    let back = y.rec;
    let x = Judge {
        size: j.size + came,
        worth: j.worth,
        letters: j.letters,
        length: j.length,
        shut: j.shut,
        depth: y.depth,
        now: next,
    };
    Taken {
        judge: x,
        put: y.put,
        rec: back,
    }
}

// Makes a turn with byte `b` and the record `rec` read. Past the longest file nothing changes.
pub fn take(j: Judge, rec: Open, b: u8) -> Taken
    requires { TakeReady j rec }
    ensures { TakeIs j rec b result }
{
    let now = j.now;
    if pending(now) {
        return body_turn(j, rec, b, 0);
    }
    let size = j.size;
    if size < 8 {
        return head_turn(j, rec, b);
    }
    if size <= MOST_BYTES {
        return body_turn(j, rec, b, 1);
    }
    let depth = j.depth;
    let put = slot(depth);
    Taken { judge: j, put, rec }
}
