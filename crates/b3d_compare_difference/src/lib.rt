// A difference by value: two words that are numbers, or two names by their spans.
#![tactic(auto)]

ghost use Rattle.std.specs.Prelude.{◌≡◌, ◌+◌, ◌<◌, ◌≤◌, length, take, drop};
ghost use Rattle.b3d_spec.specs.Rebuild.{same};
ghost use Rattle.b3d_compare_spec.specs.Words.{words_of, kind_at};
ghost use Rattle.b3d_compare_spec.specs.Differences.{span_text, is_float, numbers_of};
ghost use Rattle.b3d_compare_difference.specs.Spans.{SpanWithin, SpanIs, entry_numbers, Clean};

use b3d_compare_spec::{Difference, Span};

// Returns whether word `w` of table `k` is a float.
pub fn is_float(k: usize, w: usize) -> bool
    requires { w < words_of k }
    ensures { result ≡ is_float (kind_at k w) }
{
    if k == 1 {
        return 4 <= w;
    }
    if k == 2 {
        if w < 2 {
            return false;
        }
        return w < 7;
    }
    if k == 3 {
        if w < 3 {
            return false;
        }
        if w < 13 {
            return true;
        }
        return w == 19;
    }
    if k == 5 {
        return true;
    }
    if k == 8 {
        return 1 <= w;
    }
    if k == 10 {
        return 1 <= w;
    }
    false
}

// Returns the difference of the numbers `x` and `y`: of floats where `float` says so and neither is a NaN, else of whole numbers.
pub fn numbers(float: bool, x: u32, y: u32) -> Difference
    ensures { result ≡ numbers_of float x y }
{
    if !float {
        return Difference::Wholes(x, y);
    }
    let m = x % 0x8000_0000;
    if 0x7F80_0000 < m {
        return Difference::Wholes(x, y);
    }
    let n = y % 0x8000_0000;
    if 0x7F80_0000 < n {
        return Difference::Wholes(x, y);
    }
    let first = f32::from_bits(x);
    let second = f32::from_bits(y);
    Difference::Floats(first, second)
}

// Returns the span of a name of the file `s` by its `place` and its length `size`, cut to the file; an empty one where `place` is beyond its end.
pub fn span_of(s: &[u8], place: u32, size: u32) -> Span
    ensures { SpanIs s.now place size result }
{
    let p = wire::size(place);
    if s.len() <= p {
        return Span {
            place: 0,
            length: 0,
        };
    }
    let left = s.len() - p;
    let n = wire::size(size);
    if left < n {
        return Span {
            place,
            length: left as u32,
        };
    }
    Span {
        place,
        length: size,
    }
}

// Returns whether the `n` bytes of `a` from `p` on and of `b` from `q` on are the same.
fn same_bytes(a: &[u8], b: &[u8], p: usize, q: usize, n: usize) -> bool
    requires n_in_bounds { p + n ≤ length a.now }
    requires n_in_bounds_2 { q + n ≤ length b.now }
    ensures { result ≡ same (take n (drop p a.now)) (take n (drop q b.now)) }
{
    for i in 0..n {
        if a[p + i] != b[q + i] {
            return false;
        }
    }
    true
}

// Returns whether the text of the span `x` of `a` and that of the span `y` of `b` are the same.
pub fn same_text(a: &[u8], b: &[u8], x: Span, y: Span) -> bool
    requires span_within { SpanWithin a.now x }
    requires span_within_2 { SpanWithin b.now y }
    ensures { result ≡ same (span_text a.now x) (span_text b.now y) }
{
    if x.length != y.length {
        return false;
    }
    same_bytes(
        a,
        b,
        wire::size(x.place),
        wire::size(y.place),
        wire::size(x.length),
    )
}

// Returns the numbers that the entry of the difference `d` begins with: table `k`, row `r`, word `w`, and the two cells, or the lengths of the two texts.
pub fn entry_numbers(k: u32, r: u32, w: u32, d: Difference) -> [u32; 5]
    requires { Clean d }
    ensures { result ≡ entry_numbers k r w d }
{
    match d {
        Difference::Wholes(x, y) => [k, r, w, x, y],
        Difference::Floats(x, y) => {
            let first = f32::to_bits(x);
            let second = f32::to_bits(y);
            [k, r, w, first, second]
        }
        Difference::Texts(x, y) => {
            let first = x.length;
            let second = y.length;
            [k, r, w, first, second]
        }
    }
}
