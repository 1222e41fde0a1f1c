// Text put into a lent slice of bytes: bytes, decimal numbers, names. What has no room is left out, so no output is too short to be written to; `Puts` says
// what is there afterwards, and where the next text goes.
#![tactic(auto)]

ghost use Rattle.std.specs.Prelude.{◌≡◌, [], ◌∷◌, map, ◌+◌, ◌≤◌, ◌<◌, length, drop};
ghost use Rattle.b3d_list_text.specs.Puts.{Puts};
ghost use Rattle.b3d_list_text.specs.Text.{shown as shownAs, decimal, after as afterIn, number_at, number_line, text_line};

// Stores the byte `b` in `out` at `at`, if there is room. Returns the place of the next text.
fn put(b: u8, out: &mut [u8], at: usize) -> usize
    requires { at ≤ length out.old }
    ensures { Puts (b ∷ []) out.old at out.new result }
{
    if at < out.len() {
        out[at] = b;
        return at + 1;
    }
    at
}

// Returns the byte that is printed for byte `b` of a text: `b` itself from 32 to 126, else `?`.
fn shown(b: u8) -> u8
    ensures { result ≡ shownAs b }
{
    if b < 32 {
        return 63;
    }
    if 126 < b {
        return 63;
    }
    b
}

// Returns the digit of `n`, a number below ten.
fn digit(n: usize) -> u8
    requires { n < 10 }
    ensures { result ≡ 48 + n }
{
    48 + n as u8
}

// Stores `n` in decimal digits, without leading zeros, in `out` from `at` on. Returns the place of the next text.
fn put_decimal(n: usize, out: &mut [u8], at: usize) -> usize
    requires { at ≤ length out.old }
    ensures { Puts (decimal n) out.old at out.new result }
{
    if n < 10 {
        return put(digit(n), out, at);
    }
    let next = put_decimal(n / 10, out, at);
    put(digit(n % 10), out, next)
}

// Returns what follows number `i` of a line: a space, or the end of the line after the last.
fn after(numbers: &[usize], i: usize) -> u8
    requires { i < length numbers.now }
    ensures { result ≡ afterIn (drop (i + 1) numbers.now) }
{
    if i + 1 < numbers.len() {
        return 32;
    }
    10
}

// Stores number `i` of a line, and what follows it, in `out` from `at` on. Returns the place of the next text.
fn put_number(numbers: &[usize], i: usize, out: &mut [u8], at: usize) -> usize
    requires { (i < length numbers.now) × (at ≤ length out.old) }
    ensures { Puts (number_at numbers.now i) out.old at out.new result }
{
    let next = put_decimal(numbers[i], out, at);
    put(after(numbers, i), out, next)
}

// Stores a line of `numbers` in `out` from `at` on. Returns the place of the next text. No number gives no line.
pub fn put_numbers(numbers: &[usize], out: &mut [u8], at: usize) -> usize
    requires { at ≤ length out.old }
    ensures { Puts (number_line numbers.now) out.old at out.new result }
{
    let mut next = at;
    for i in 0..numbers.len() {
        next = put_number(numbers, i, out, next);
    }
    next
}

// Stores the bytes of `text` as they are printed in `out` from `at` on. Returns the place of the next text.
fn put_shown(text: &[u8], out: &mut [u8], at: usize) -> usize
    requires { at ≤ length out.old }
    ensures { Puts (map shownAs text.now) out.old at out.new result }
{
    let mut next = at;
    for byte in text {
        next = put(shown(*byte), out, next);
    }
    next
}

// Stores a line with `text`, as it is printed, in `out` from `at` on. Returns the place of the next text. An empty text gives an empty line.
pub fn put_line(text: &[u8], out: &mut [u8], at: usize) -> usize
    requires { at ≤ length out.old }
    ensures { Puts (text_line text.now) out.old at out.new result }
{
    let next = put_shown(text, out, at);
    put(10, out, next)
}
