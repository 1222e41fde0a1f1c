// The mode that a C caller names by a number: strict or lenient (E8).
#![tactic(auto)]

ghost use Rattle.std.specs.Prelude.{◌≡◌};
ghost use Rattle.kelompuris_c_mode.specs.Modes.{mode_of};

use b3d_spec::Mode;

// Returns the lenient mode if `n` is 1, else the strict one.
pub fn mode_of(n: u32) -> Mode
    ensures { result ≡ mode_of n }
{
    if n == 1 {
        return Mode::Lenient;
    }
    Mode::Strict
}
