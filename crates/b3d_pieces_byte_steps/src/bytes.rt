// A byte inside a chunk.
ghost use Rattle.std.specs.Prelude.{◌+◌, ◌<◌, ◌≤◌};
ghost use Rattle.layout.specs.Rows.{most_bytes};
ghost use Rattle.b3d_pieces_spec.specs.Machine.{text_byte, byte_in};
ghost use Rattle.b3d_pieces_spec.specs.Good.{worth, Off};
ghost use Rattle.b3d_pieces_item_steps.specs.Nows.{Ready, Gives};
ghost use Rattle.b3d_pieces_byte_steps.specs.Bytes.{AddsByte, came_of, spare_of};

use crate::rows::{text_done, word_done};
use b3d_pieces_body_steps::{skip_from, text_from};
use b3d_pieces_item_steps::Now;
use b3d_pieces_spec::{Open, Part, Totals};

// Returns the value of `j` bytes of a number, worth `acc`, and one more, `b`.
pub fn gathered(j: usize, acc: usize, b: u8) -> usize
    requires { (j ≤ 3) × (acc < worth j) × (acc < 16777216) }
    ensures { AddsByte j acc b result }
{
    let v = b as usize;
    if j == 0 {
        return v;
    }
    if j == 1 {
        return acc + 256 * v;
    }
    if j == 2 {
        return acc + 65536 * v;
    }
    acc + 16777216 * v
}

// Takes byte `b` of a text, at `at`: 0 ends the text.
fn text_byte(fixed: bool, start: usize, b: u8, at: usize, g: Totals, f: Open) -> Now
    requires { Ready 1 (at + 1) g f }
    ensures { Gives 1 (at + 1) g f result (text_byte fixed start b at g f) }
{
    if b == 0 {
        return text_done(fixed, start, at + 1, g, f);
    }
    text_from(fixed, start, at + 1, g, f)
}

// Takes byte `b` of the part `m`, which stands at `at` in `f`.
pub fn byte_in(m: Part, b: u8, at: usize, g: Totals, f: Open) -> Now
    requires { Off m at (came_of m at) × Ready 1 (came_of m at + 1) g f × (at ≤ most_bytes) }
    ensures { Gives (spare_of m + 1) (came_of m at + 1) g f result (byte_in m b at g f) }
{
    match m {
        Part::Text(fixed, start) => text_byte(fixed, start, b, at, g, f),
        Part::Row(fixed, start, i, j, acc, k) => {
            let v = gathered(j, acc, b);
            if j == 3 {
                return word_done(fixed, start, i, v, at, k, g, f);
            }
            Now::Live(at, Part::Row(fixed, start, i, j + 1, v, k), g, f)
        }
        Part::Skip(until) => skip_from(until, at + 1, g, f),
    }
}
