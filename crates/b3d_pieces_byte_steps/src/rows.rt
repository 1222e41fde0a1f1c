// A number of a row is complete: it is judged, and the row goes on or ends.
ghost use Rattle.std.specs.Prelude.{◌≡◌, ◌+◌, ◌≤◌};
ghost use Rattle.wire.specs.Bytes.{IsWord};
ghost use Rattle.b3d_pieces_spec.specs.Bodies.{keep as keep_of};
ghost use Rattle.b3d_pieces_spec.specs.Machine.{row_done, row_from, word_done, text_done};
ghost use Rattle.b3d_pieces_spec.specs.Good.{Words};
ghost use Rattle.b3d_pieces_item_steps.specs.Nows.{Ready, Gives};

use b3d_pieces_body_steps::fixed_done;
use b3d_pieces_header_steps::header_done;
use b3d_pieces_item_steps::Now;
use b3d_pieces_item_steps::between::{edge, less, nests};
use b3d_pieces_rules::faults::row_fault;
use b3d_pieces_rules::lengths::row_len;
use b3d_pieces_spec::{Kept, NONE_KEPT, Open, Part, Totals};
use layout::refusals;

// Returns `k` with number `i` set to `w`; from `i` 3 on nothing is kept.
pub fn keep(i: usize, w: usize, k: Kept) -> Kept
    ensures { result ≡ keep_of i w k }
{
    let mut x = k;
    if i == 0 {
        x.first = w;
        return x;
    }
    if i == 1 {
        x.second = w;
        return x;
    }
    if i == 2 {
        x.third = w;
        return x;
    }
    x
}

// Ends a row of `f` that began at `start`: fixed data, a header inside `f`, or an item, which is counted.
fn row_done(fixed: bool, start: usize, at: usize, k: Kept, g: Totals, f: Open) -> Now
    requires { Ready 1 at g f × Words k }
    ensures { Gives 1 at g f result (row_done fixed start at k g f) }
{
    if fixed {
        return fixed_done(at, k, g, f);
    }
    let tag = f.tag;
    if nests(tag) {
        let letters = k.first;
        let n = k.second;
        return header_done(start, letters, n, at, g, f);
    }
    let mut y = f;
    y.count = y.count + 1;
    edge(at, g, y)
}

// Begins number `i` of a row at `at`, or ends the row if it has no such number.
fn row_from(fixed: bool, start: usize, i: usize, at: usize, k: Kept, g: Totals, f: Open) -> Now
    requires { Ready 1 at g f × Words k × (i ≤ at) }
    ensures { Gives 1 at g f result (row_from fixed start i at k g f) }
{
    let tag = f.tag;
    let kept = f.kept;
    let n = row_len(fixed, tag, kept, g);
    if i == n {
        return row_done(fixed, start, at, k, g, f);
    }
    Now::Live(at, Part::Row(fixed, start, i, 0, 0, k), g, f)
}

// Judges `w`, number `i` of a row, which began at `at`: answers its refusal there, or goes on with the row.
pub fn word_done(
    fixed: bool,
    start: usize,
    i: usize,
    w: usize,
    at: usize,
    k: Kept,
    g: Totals,
    f: Open,
) -> Now
    requires { Ready 1 (at + 4) g f × Words k × IsWord w × (i ≤ at) }
    ensures { Gives 1 (at + 4) g f result (word_done fixed start i w at k g f) }
{
    let tag = f.tag;
    let kept = f.kept;
    let no = row_fault(fixed, tag, kept, g, i, w);
    if no != 0 {
        return Now::Fault(no, at);
    }
    let more = keep(i, w, k);
    row_from(fixed, start, i + 1, at + 4, more, g, f)
}

// Begins the numbers of a row at `at`, after the zero of its text, or answers 5 at `start` if they run past the chunk.
pub fn text_done(fixed: bool, start: usize, at: usize, g: Totals, f: Open) -> Now
    requires { Ready 1 at g f }
    ensures { Gives 1 at g f result (text_done fixed start at g f) }
{
    let tag = f.tag;
    let kept = f.kept;
    let n = row_len(fixed, tag, kept, g);
    let end = f.end;
    let left = less(end, at);
    if left / 4 < n {
        return Now::Fault(refusals::CUT_ITEM, start);
    }
    row_from(fixed, start, 0, at, NONE_KEPT, g, f)
}
