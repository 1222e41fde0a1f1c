// Between two parts of a chunk: an item or a header begins, or the chunk ends.
ghost use Rattle.std.specs.Prelude.{◌≡◌, ◌-◌};
ghost use Rattle.b3d_pieces_spec.specs.Bodies.{nests as nestsOf, text_items};
ghost use Rattle.b3d_pieces_spec.specs.Machine.{begin as beginOf};
ghost use Rattle.b3d_pieces_item_steps.specs.Nows.{Ready, Gives, edge_here};

use crate::Now;
use crate::nesting::required_missing;
use b3d_chunk_cursor::same;
use b3d_pieces_rules::lengths::inner_len;
use b3d_pieces_spec::{NONE_KEPT, Open, Part, Totals};
use b3d_pieces_totals::leave;
use b3d_spec::Tag;
use layout::refusals;

// Returns `a - b`, or 0 if `b` is greater.
pub fn less(a: usize, b: usize) -> usize
    ensures { result ≡ a - b }
{
    if a < b {
        return 0;
    }
    a - b
}

// Returns whether the items of a chunk of tag `tag` begin with a text.
fn text_items(tag: Tag) -> bool
    ensures { result ≡ text_items tag }
{
    same(tag, Tag::TEXS) | same(tag, Tag::BRUS)
}

// Returns whether chunks stand inside a chunk of tag `tag`.
pub fn nests(tag: Tag) -> bool
    ensures { result ≡ nestsOf tag }
{
    same(tag, Tag::BB3D) | (same(tag, Tag::NODE) | same(tag, Tag::MESH))
}

// Begins an item, or a header, at `at` in `f`: a text or a row of numbers. A row that runs past the chunk is refused at `at`: 3 for a header, 5 for an item.
pub fn begin(at: usize, g: Totals, f: Open) -> Now
    requires { Ready 0 at g f }
    ensures { Gives 0 at g f result (beginOf at g f) }
{
    let tag = f.tag;
    if text_items(tag) {
        return Now::Live(at, Part::Text(false, at), g, f);
    }
    let kept = f.kept;
    let n = inner_len(tag, kept, g);
    let end = f.end;
    let left = less(end, at);
    if left / 4 < n {
        if nests(tag) {
            return Now::Fault(refusals::CUT_CHUNK, at);
        }
        return Now::Fault(refusals::CUT_ITEM, at);
    }
    Now::Live(at, Part::Row(false, at, 0, 0, 0, NONE_KEPT), g, f)
}

// Begins the next item or header at `at`, where a part of `f` ended; or closes `f` if it ends here, with 8 at its header if it lacks a chunk that must stand
// in it.
pub fn edge(at: usize, g: Totals, f: Open) -> Now
    requires { Ready 0 at g f }
    ensures { Gives 0 at g f result (edge_here at g f) }
{
    let end = f.end;
    if at != end {
        return begin(at, g, f);
    }
    let tag = f.tag;
    let turn = f.turn;
    if required_missing(tag, turn) {
        let head = f.head;
        return Now::Fault(refusals::NO_VRTS_OR_TRIS, head);
    }
    let count = f.count;
    let kept = f.kept;
    let told = f.told;
    let x = leave(tag, count, kept, told, g);
    Now::Pop(at, x)
}
