// The next bytes of a piece, by what stands at the present place.
ghost use Rattle.std.specs.Prelude.{◌≡◌, ◌+◌, ◌≤◌, length};
ghost use Rattle.b3d_pieces_spec.specs.declared.Part.TheVariants.{Text as aText, Row as aRow, Skip as aSkip};
ghost use Rattle.b3d_pieces_spec.specs.Limits.{most_counted};
ghost use Rattle.b3d_pieces_skip.specs.Passes.{moved_to, PassReady, PassFrom, PassIs};

use b3d_pieces_item_steps::Now;
use b3d_pieces_judge_step::{Judge, Turn};
use b3d_pieces_skip_lengths::{before, room, until_zero};
use b3d_pieces_skip_numbers::RowPlace;
use b3d_pieces_skip_rows::judging::row_rules;
use b3d_pieces_skip_rows::rows::rows;
use b3d_pieces_spec::{Open, Part, Totals};

// Returns the turn `t` after `n` bytes, with `now` as what is held.
fn moved(t: Turn, now: Now, n: usize) -> Turn
    requires { (t.at + n ≤ t.end) × (t.judge.size + n ≤ most_counted) }
    ensures { result ≡ moved_to t now n }
{
    let j = t.judge;
    let rec = t.rec;
    let x = Judge {
        size: j.size + n,
        worth: j.worth,
        letters: j.letters,
        length: j.length,
        shut: j.shut,
        depth: j.depth,
        now: now,
    };
    Turn {
        judge: x,
        at: t.at + n,
        end: t.end,
        get: t.get,
        put: t.put,
        rec: rec,
    }
}

// Takes at most `n` bytes of a chunk that is passed over up to `until`, but not its last byte.
fn pass_skip(t: Turn, piece: &[u8], n: usize, at: usize, until: usize, g: Totals, f: Open) -> Turn
    requires { PassFrom t piece.now n at (aSkip until) g f }
    ensures { PassIs t piece.now result }
{
    let k = before(at, until, n);
    let now = Now::Live(at + k, Part::Skip(until), g, f);
    moved(t, now, k)
}

// Takes at most `n` bytes of a text that began at `start`, up to its zero or to the last byte of its chunk `f`.
fn pass_text(
    t: Turn,
    piece: &[u8],
    n: usize,
    at: usize,
    fixed: bool,
    start: usize,
    g: Totals,
    f: Open,
) -> Turn
    requires { PassFrom t piece.now n at (aText fixed start) g f }
    ensures { PassIs t piece.now result }
{
    let end = f.end;
    let from = t.at;
    let most = before(at, end, n);
    let to = until_zero(piece, from, from + most);
    let k = to - from;
    let now = Now::Live(at + k, Part::Text(fixed, start), g, f);
    moved(t, now, k)
}

// Takes at most `n` bytes of rows of `f` from the place `x` on.
fn pass_rows(t: Turn, piece: &[u8], n: usize, x: RowPlace, fixed: bool, g: Totals, f: Open) -> Turn
    requires { PassFrom t piece.now n x.at (aRow fixed x.start x.i x.j x.acc x.kept) g f × (x.from ≡ t.at) × (x.count ≡ f.count) }
    ensures { PassIs t piece.now result }
{
    let from = t.at;
    let q = row_rules(fixed, g, f);
    let y = rows(x, q, piece, from + n);
    let kept = y.kept;
    let mut h = f;
    h.count = y.count;
    let now = Now::Live(y.at, Part::Row(fixed, y.start, y.i, y.j, y.acc, kept), g, h);
    moved(t, now, y.from - from)
}

// Takes at most `n` bytes of the part `m` at `at` in `f`.
fn pass_live(t: Turn, piece: &[u8], n: usize, at: usize, m: Part, g: Totals, f: Open) -> Turn
    requires { PassFrom t piece.now n at m g f }
    ensures { PassIs t piece.now result }
{
    match m {
        Part::Text(fixed, start) => pass_text(t, piece, n, at, fixed, start, g, f),
        Part::Row(fixed, start, i, j, acc, k) => {
            let x = RowPlace {
                from: t.at,
                at: at,
                start: start,
                i: i,
                j: j,
                acc: acc,
                kept: k,
                count: f.count,
            };
            pass_rows(t, piece, n, x, fixed, g, f)
        }
        Part::Skip(until) => pass_skip(t, piece, n, at, until, g, f),
    }
}

// Takes as many of the next bytes of `piece` as can be taken at once; after a refusal and after the end of BB3D they are only counted.
pub fn pass(t: Turn, piece: &[u8]) -> Turn
    requires { PassReady t piece.now }
    ensures { PassIs t piece.now result }
{
    let j = t.judge;
    let n = room(j.size, t.end - t.at);
    if n == 0 {
        return t;
    }
    let now = j.now;
    match now {
        Now::Live(at, m, g, f) => pass_live(t, piece, n, at, m, g, f),
        Now::Push(_, _, _, _) => t,
        Now::Pop(_, _) => t,
        Now::Fault(_, _) => moved(t, now, n),
        Now::Over(_) => moved(t, now, n),
    }
}
