// The answer for bytes that go into a lent output, by their size alone: 11 and the size needed, or 0 and the size written.
#![tactic(auto)]

ghost use Rattle.std.specs.Prelude.{◌<◌};
ghost use Rattle.b3d_spec_output_answer.specs.Sizes.{OfSize};

use b3d_spec::Written;
use layout::refusals;

// Returns the answer for `size` bytes and an output of `room` bytes: 11 and `size` if it is too short, else 0 and `size` as the size written.
pub fn answer_of(size: usize, room: usize) -> Written
    requires { size < 0x100000000 }
    ensures { OfSize size room result }
{
    if room < size {
        return Written {
            number: refusals::TOO_SHORT,
            place: shared_table_words::cell(size),
            size: 0,
        };
    }
    Written {
        number: 0,
        place: 0,
        size: shared_table_words::cell(size),
    }
}
