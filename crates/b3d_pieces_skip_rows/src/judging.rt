// Which numbers of a row are judged, by the tag of its chunk.
ghost use Rattle.std.specs.Prelude.{◌≡◌, false as inside};
ghost use Rattle.b3d_pieces_spec.specs.Good.{Words};
ghost use Rattle.b3d_pieces_skip_numbers.specs.Places.{JudgedIs, RulesAre};
ghost use Rattle.b3d_pieces_skip_rows.specs.Items.{AnyRow, ids_of, FixedIs, AgainIs};

use b3d_pieces_rules::faults::bone_vertices;
use b3d_pieces_rules::lengths::row_len;
use b3d_pieces_skip_numbers::{JudgedNumbers, RowRules};
use b3d_pieces_spec::{Kept, Open, Totals};
use b3d_spec::Tag;

// Returns that the first `past` numbers of a row are ids below `names`, and the others are not judged.
fn ids(past: usize, names: usize) -> JudgedNumbers
    ensures { result ≡ ids_of past names }
{
    JudgedNumbers {
        first: 0,
        past: past,
        colour: false,
        names: names,
    }
}

// Returns that every number is judged and none is right: such rows are left to the machine's own turns.
fn every() -> JudgedNumbers
    ensures { AnyRow result }
{
    ids(4294967295, 0)
}

// Returns which numbers of the fixed data of a chunk of tag `tag` are judged: none of NODE and ANIM; the others are left to the machine's own turns.
fn fixed_judged(tag: Tag) -> JudgedNumbers
    ensures { FixedIs tag result }
{
    match tag {
        Tag::NODE => ids(0, 0),
        Tag::ANIM => ids(0, 0),
        _ => every(),
    }
}

// Returns which numbers of an item of a chunk of tag `tag` with the fixed data `k` are judged, or of a header inside it.
fn inner_judged(tag: Tag, k: Kept, g: Totals) -> JudgedNumbers
    ensures { JudgedIs result inside tag k g }
{
    match tag {
        Tag::BRUS => every(),
        Tag::VRTS => {
            let first = 3 + k.first / 1 % 2 * 3;
            JudgedNumbers {
                first: first,
                past: first + k.first / 2 % 2 * 4,
                colour: true,
                names: 0,
            }
        }
        Tag::TRIS => ids(3, g.own),
        Tag::BONE => ids(1, bone_vertices(g)),
        _ => ids(0, 0),
    }
}

// Returns whether the row is an item of numbers only, so that another such item may follow it.
fn again(fixed: bool, tag: Tag) -> bool
    ensures { AgainIs fixed tag result }
{
    if fixed {
        return false;
    }
    match tag {
        Tag::VRTS => true,
        Tag::TRIS => true,
        Tag::BONE => true,
        Tag::KEYS => true,
        _ => false,
    }
}

// Returns which numbers of a row are judged: of fixed data if `fixed` is set, else of an item or a header.
fn judged(fixed: bool, tag: Tag, k: Kept, g: Totals) -> JudgedNumbers
    ensures { JudgedIs result fixed tag k g }
{
    if fixed {
        return fixed_judged(tag);
    }
    inner_judged(tag, k, g)
}

// Returns what the rules of a row of `f` ask: of its fixed data if `fixed` is set, else of an item or a header inside it.
pub fn row_rules(fixed: bool, g: Totals, f: Open) -> RowRules
    requires { Words f.kept }
    ensures { RulesAre result fixed g f }
{
    let tag = f.tag;
    let kept = f.kept;
    let n = row_len(fixed, tag, kept, g);
    let q = judged(fixed, tag, kept, g);
    let more = again(fixed, tag);
    RowRules {
        long: n,
        judged: q,
        again: more,
        end: f.end,
    }
}
