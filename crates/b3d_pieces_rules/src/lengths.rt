// How many numbers a row has, by the tag of its chunk.
ghost use Rattle.std.specs.Prelude.{◌≡◌, length};
ghost use Rattle.b3d_spec.specs.Rules.{vertex_words};
ghost use Rattle.b3d_pieces_spec.specs.Bodies.{fixed_row, inner_row, rules_of};
ghost use Rattle.b3d_pieces_spec.specs.Good.{Words};

use b3d_pieces_spec::{Kept, Totals};
use b3d_spec::Tag;

// Returns how many numbers the fixed data of a chunk of tag `tag` has, after its text if it has one.
pub fn fixed_len(tag: Tag, g: Totals) -> usize
    ensures { result ≡ length (fixed_row tag g) }
{
    match tag {
        Tag::BB3D => 1,
        Tag::TEXS => 0,
        Tag::BRUS => 1,
        Tag::NODE => 10,
        Tag::MESH => 1,
        Tag::VRTS => 3,
        Tag::TRIS => 1,
        Tag::BONE => 0,
        Tag::KEYS => 1,
        Tag::ANIM => 3,
    }
}

// Returns how many numbers a vertex has, by the flags, sets and set size in `k`.
fn vertex_len(k: Kept) -> usize
    requires { Words k }
    ensures { result ≡ vertex_words k.first k.second k.third }
{
    3 + k.first / 1 % 2 * 3 + k.first / 2 % 2 * 4 + k.second * k.third
}

// Returns how many numbers an item of a chunk of tag `tag` with the fixed data `k` has, after its text if it has one; or a header inside it.
pub fn inner_len(tag: Tag, k: Kept, g: Totals) -> usize
    requires { Words k }
    ensures { result ≡ length (inner_row tag k g) }
{
    match tag {
        Tag::BB3D => 2,
        Tag::TEXS => 7,
        Tag::BRUS => 7 + k.first,
        Tag::NODE => 2,
        Tag::MESH => 2,
        Tag::VRTS => vertex_len(k),
        Tag::TRIS => 3,
        Tag::BONE => 2,
        Tag::KEYS => 1 + k.first / 1 % 2 * 3 + k.first / 2 % 2 * 3 + k.first / 4 % 2 * 4,
        Tag::ANIM => 0,
    }
}

// Returns how many numbers a row has: of fixed data if `fixed` is set, else of an item or a header.
pub fn row_len(fixed: bool, tag: Tag, k: Kept, g: Totals) -> usize
    requires { Words k }
    ensures { result ≡ length (rules_of fixed tag k g) }
{
    if fixed {
        return fixed_len(tag, g);
    }
    inner_len(tag, k, g)
}
