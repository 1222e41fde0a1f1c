// The rule of a colour in code: red, green, blue or alpha, by its bits. One function serves the judge of files and the check of lent tables.
#![tactic(auto)]

ghost use Rattle.std.specs.Prelude.{◌≡◌};
ghost use Rattle.layout.specs.Rules.{unit, holds};

// Returns whether `bits` is a float from 0 to 1, minus zero too. Whether the pattern is a NaN's is asked of the bits; the rest is asked of the value.
pub fn colour_ok(bits: u32) -> bool
    ensures { result ≡ holds unit bits }
{
    let m = bits % 0x8000_0000;
    if 0x7F80_0000 < m {
        return false;
    }
    let x = f32::from_bits(bits);
    0.0 <= x && x <= 1.0
}
