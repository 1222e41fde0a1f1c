// What an open chunk may still add to the totals, and whether it can be open there.
ghost use Rattle.std.specs.Prelude.{◌≡◌, ◌+◌, ◌≤◌};
ghost use Rattle.b3d_spec.specs.Rules.{levels};
ghost use Rattle.b3d_pieces_spec.specs.Good.{Words, Bound, extra as extraOf};
ghost use Rattle.b3d_pieces_valid_record.specs.Tests.{Tests, Weighs, OpenFits};

use b3d_pieces_spec::{Kept, MOST_AROUND, MOST_AROUND_MESH, MOST_COUNTED, OVER_COUNTED, Open};
use b3d_spec::{LEVELS, Tag};

// Returns whether the numbers of `k` are words of four bytes.
pub fn words_valid(k: Kept) -> bool
    ensures { Tests result (Words k) }
{
    if 4294967295 < k.first {
        return false;
    }
    if 4294967295 < k.second {
        return false;
    }
    k.third <= 4294967295
}

// Returns whether `n` chunks around and `level` levels of nodes left are at most 16 together.
fn node_bound(level: usize, n: usize) -> bool
    ensures { Tests result (n + level ≤ levels) }
{
    if LEVELS < n {
        return false;
    }
    level <= LEVELS - n
}

// Returns whether a chunk of tag `tag` with `level` levels of nodes left may have `n` chunks open around it.
pub fn bound_valid(tag: Tag, level: usize, n: usize) -> bool
    ensures { Tests result (Bound tag level n) }
{
    match tag {
        Tag::BB3D => node_bound(level, n),
        Tag::TEXS => n <= MOST_AROUND,
        Tag::BRUS => n <= MOST_AROUND,
        Tag::NODE => node_bound(level, n),
        Tag::MESH => n <= MOST_AROUND_MESH,
        Tag::VRTS => n <= MOST_AROUND,
        Tag::TRIS => n <= MOST_AROUND,
        Tag::BONE => n <= MOST_AROUND,
        Tag::KEYS => n <= MOST_AROUND,
        Tag::ANIM => n <= MOST_AROUND,
    }
}

// Returns the rows allowed for an open chunk beside its items: 0 for BB3D, and for NODE, whose row is counted when it begins; else 1.
fn extra(tag: Tag) -> usize
    ensures { (result ≡ extraOf tag) × (result ≤ 1) }
{
    match tag {
        Tag::BB3D => 0,
        Tag::TEXS => 1,
        Tag::BRUS => 1,
        Tag::NODE => 0,
        Tag::MESH => 1,
        Tag::VRTS => 1,
        Tag::TRIS => 1,
        Tag::BONE => 1,
        Tag::KEYS => 1,
        Tag::ANIM => 1,
    }
}

// Returns how many rows the open chunk `f` may still add. Returns 16,777,218 if they are too many, or if a file cannot have it open with `n` chunks around
// it.
pub fn rows_to_add(f: Open, n: usize) -> usize
    ensures { Weighs (OpenFits f n) (f.count + extraOf f.tag) result }
{
    let tag = f.tag;
    let level = f.level;
    if bound_valid(tag, level, n) {
        let kept = f.kept;
        if words_valid(kept) {
            let count = f.count;
            if MOST_COUNTED < count {
                return OVER_COUNTED;
            }
            return count + extra(tag);
        }
        return OVER_COUNTED;
    }
    OVER_COUNTED
}
