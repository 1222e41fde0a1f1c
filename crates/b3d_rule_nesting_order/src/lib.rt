// What the nesting table says of the chunks inside a chunk, one after the other. Refusal 4 is given where `is_permitted` says no, 8 where `owes` says yes: of a
// file at hand by `b3d_chunk_next_allowed`; the judge of pieces asks the same two.
#![tactic(auto)]

ghost use Rattle.std.specs.Prelude.{◌≡◌};
ghost use Rattle.b3d_spec.specs.Nesting.{nesting, required_between, end, next};
ghost use Rattle.b3d_rule_nesting_order.specs.Turns.{between, reached_of, permit_of};

use b3d_rule_nesting_table::Entry;
use b3d_spec::Tag;

// Returns whether a chunk of entry `e` must stand, at a turn after `lo` and before `hi`.
fn is_between(e: Entry, lo: u8, hi: u8) -> bool
    ensures { result ≡ between e lo hi }
{
    if e.must {
        if lo < e.turn {
            return e.turn < hi;
        }
        return false;
    }
    false
}

// Returns whether a tag that must stand inside a chunk of the tag `enclosing` has its turn after `lo` and before `hi`.
fn required_between(enclosing: Tag, lo: u8, hi: u8) -> bool
    ensures { result ≡ required_between (nesting enclosing) lo hi }
{
    let row = b3d_rule_nesting_lookup::row_of(enclosing);
    for column in 0..10 {
        if is_between(row[column], lo, hi) {
            return true;
        }
    }
    false
}

// How far the chunks inside a chunk have come: the turn of the last, and whether one stood there that may not stand again.
#[derive(Clone, Copy)]
pub struct Reached {
    pub turn: u8,
    pub spent: bool,
}

// Returns whether a chunk of `tag` may stand inside one of the tag `enclosing`, after chunks that came to `reached`; if so, how far they come with it.
pub fn is_permitted(enclosing: Tag, reached: Reached, tag: Tag) -> Option<Reached>
    ensures { result ≡ permit_of (next (nesting enclosing) (nesting enclosing) (reached_of reached) tag) }
{
    let e = b3d_rule_nesting_lookup::entry_of(enclosing, tag);
    let turn = e.turn;
    if e.allowed {
        if reached.turn < turn {
            if required_between(enclosing, reached.turn, turn) {
                return None;
            }
            return Some(Reached {
                turn,
                spent: !e.again,
            });
        }
        if turn < reached.turn {
            return None;
        }
        if e.again {
            return Some(reached);
        }
        if reached.spent {
            return None;
        }
        return Some(Reached { turn, spent: true });
    }
    None
}

// Returns whether a chunk of the tag `enclosing` that ends after `reached` lacks one that must stand in it.
pub fn owes(enclosing: Tag, reached: Reached) -> bool
    ensures { result ≡ required_between (nesting enclosing) reached.turn end }
{
    required_between(enclosing, reached.turn, 4)
}
