// A step of the piece judge where a chunk's body begins, its fixed data ends, or a chunk is passed over. By value, as in b3d_pieces_item_steps.
#![tactic(auto)]

ghost use Rattle.std.specs.Prelude.{◌≡◌, ◌*◌, ◌≤◌};
ghost use Rattle.b3d_pieces_spec.specs.Bodies.{wrong_for};
ghost use Rattle.b3d_pieces_spec.specs.Machine.{text_from, fixed_done, fixed_row_from, enter as enterOf, skip_from};
ghost use Rattle.b3d_pieces_spec.specs.Good.{Words};
ghost use Rattle.b3d_pieces_item_steps.specs.Nows.{Ready, Gives, texted as textedOf};

use b3d_chunk_cursor::same;
use b3d_pieces_item_steps::Now;
use b3d_pieces_item_steps::between::{edge, less};
use b3d_pieces_rules::lengths::fixed_len;
use b3d_pieces_spec::{Kept, NONE_KEPT, Open, Part, Totals};
use b3d_pieces_totals::headed;
use b3d_spec::Tag;
use layout::refusals;

// Goes on at `at` with a text that began at `start`, or answers 5 at `start` if the chunk `f` ends here. `fixed` says that it is fixed data.
pub fn text_from(fixed: bool, start: usize, at: usize, g: Totals, f: Open) -> Now
    ensures { Gives 0 at g f result (text_from fixed start at g f) }
{
    if at == f.end {
        return Now::Fault(refusals::CUT_ITEM, start);
    }
    Now::Live(at, Part::Text(fixed, start), g, f)
}

// Passes over a chunk with an unknown tag up to `until`; where `at` has come there, the enclosing chunk `f` goes on or ends.
pub fn skip_from(until: usize, at: usize, g: Totals, f: Open) -> Now
    requires { Ready 0 at g f }
    ensures { Gives 0 at g f result (skip_from until at g f) }
{
    if at == until {
        return edge(at, g, f);
    }
    Now::Live(at, Part::Skip(until), g, f)
}

// Keeps `k` as the fixed data of `f`, which ended at `at`; then the first item or header of `f` begins, or `f` ends.
pub fn fixed_done(at: usize, k: Kept, g: Totals, f: Open) -> Now
    requires { Ready 0 at g f × Words k }
    ensures { Gives 0 at g f result (fixed_done at k g f) }
{
    let tag = f.tag;
    let x = headed(tag, k, g);
    let mut y = f;
    y.kept = k;
    edge(at, x, y)
}

// Returns whether `left` bytes of a chunk of tag `tag` are wrong for `n` numbers of fixed data: for ANIM if they are not just these, else if they are too
// few.
fn wrong_for(tag: Tag, left: usize, n: usize) -> bool
    requires { n ≤ 10 }
    ensures { result ≡ wrong_for tag left (4 * n) }
{
    let need = 4 * n;
    if same(tag, Tag::ANIM) {
        return left != need;
    }
    left < need
}

// Begins the numbers of the fixed data of `f` at `at`, or answers 5 there if the chunk's length is wrong for them. Where there are none, `f` goes on at once.
fn fixed_row_from(at: usize, g: Totals, f: Open) -> Now
    requires { Ready 0 at g f }
    ensures { Gives 0 at g f result (fixed_row_from at g f) }
{
    let tag = f.tag;
    let end = f.end;
    let n = fixed_len(tag, g);
    let left = less(end, at);
    if wrong_for(tag, left, n) {
        return Now::Fault(refusals::CUT_ITEM, at);
    }
    if n == 0 {
        return fixed_done(at, NONE_KEPT, g, f);
    }
    Now::Live(at, Part::Row(true, at, 0, 0, 0, NONE_KEPT), g, f)
}

// Returns whether the body of a chunk of tag `tag` begins with a text.
pub fn texted(tag: Tag) -> bool
    ensures { result ≡ textedOf tag }
{
    same(tag, Tag::NODE)
}

// Begins the body of `f` at `at`.
pub fn enter(at: usize, g: Totals, f: Open) -> Now
    requires { Ready 0 at g f }
    ensures { Gives 0 at g f result (enterOf (textedOf f.tag) at g f) }
{
    let tag = f.tag;
    if texted(tag) {
        return text_from(true, at, at, g, f);
    }
    fixed_row_from(at, g, f)
}
