// An entry of the list of differences, put into a lent output from a place on, or only counted.
#![tactic(auto)]

ghost use Rattle.std.specs.Prelude.{[]};
ghost use Rattle.shared_seven_bit_groups.specs.Groups.{write_numbers};
ghost use Rattle.shared_put_or_count.specs.Emits.{RoomFrom, Emits};
ghost use Rattle.b3d_compare_spec.specs.List.{change_bytes};
ghost use Rattle.b3d_compare_spec.specs.Differences.{span_text};
ghost use Rattle.b3d_compare_difference.specs.Spans.{SpanWithin, Clean};
ghost use Rattle.b3d_compare_entries.specs.Entries.{Lies, change_of, texts_of};

use b3d_compare_spec::{Difference, Span};

// Puts or counts the five numbers `ns` in their groups. Returns the place after them.
fn put_numbers(ns: [u32; 5], wet: bool, out: &mut [u8], at: usize) -> usize
    requires { RoomFrom wet (write_numbers ns []) at out.old }
    ensures { Emits wet (write_numbers ns []) out.old at out.new result }
{
    let mut next = at;
    for i in 0..5 {
        next = shared_put_or_count::put_grouped(ns[i], wet, out, next);
    }
    next
}

// Puts or counts the text of the span `x` of the file `s`. Returns the place after it.
fn put_span(s: &[u8], x: Span, wet: bool, out: &mut [u8], at: usize) -> usize
    requires span_within { SpanWithin s.now x }
    requires room_from { RoomFrom wet (span_text s.now x) at out.old }
    ensures { Emits wet (span_text s.now x) out.old at out.new result }
{
    let p = wire::size(x.place);
    let n = wire::size(x.length);
    shared_put_or_count::put_copy(s, p, n, wet, out, at)
}

// Puts or counts the two texts of the difference `d` between the files `a` and `b`, none where it is of numbers. Returns the place after them.
fn put_texts(a: &[u8], b: &[u8], d: Difference, wet: bool, out: &mut [u8], at: usize) -> usize
    requires lies { Lies a.now b.now d }
    requires room_from { RoomFrom wet (texts_of a.now b.now d) at out.old }
    ensures { Emits wet (texts_of a.now b.now d) out.old at out.new result }
{
    match d {
        Difference::Wholes(_, _) => at,
        Difference::Floats(_, _) => at,
        Difference::Texts(x, y) => {
            let next = put_span(a, x, wet, out, at);
            put_span(b, y, wet, out, next)
        }
    }
}

// Puts or counts the entry of the difference `d` of word `w` of row `r` of table `k`, between the files `a` and `b`. Returns the place after it.
pub fn put_entry(
    a: &[u8],
    b: &[u8],
    k: u32,
    r: u32,
    w: u32,
    d: Difference,
    wet: bool,
    out: &mut [u8],
    at: usize,
) -> usize
    requires clean { Clean d }
    requires lies { Lies a.now b.now d }
    requires room_from { RoomFrom wet (change_bytes (change_of a.now b.now k r w d) []) at out.old }
    ensures { Emits wet (change_bytes (change_of a.now b.now k r w d) []) out.old at out.new result }
{
    let ns = b3d_compare_difference::entry_numbers(k, r, w, d);
    let next = put_numbers(ns, wet, out, at);
    put_texts(a, b, d, wet, out, next)
}
