// The nesting table asked of a record, whose turn is any number: all numbers from 4 on count as 4, which is past the last turn.
ghost use Rattle.std.specs.Prelude.{◌≡◌};
ghost use Rattle.b3d_spec.specs.Nesting.{nesting, required_between, end, next, reached_at};
ghost use Rattle.b3d_rule_nesting_order.specs.Turns.{permit_of};
ghost use Rattle.b3d_pieces_item_steps.specs.Nests.{last_turn};

use b3d_rule_nesting_order::{Reached, is_permitted, owes};
use b3d_spec::Tag;

// Returns how far the nesting rule has come by a record's `turn`, 4 at most, and `spent`.
fn reached(turn: usize, spent: bool) -> Reached
    ensures { result ≡ record { turn = last_turn turn; spent = spent } }
{
    if turn < 4 {
        let t = turn as u8;
        return Reached { turn: t, spent };
    }
    Reached { turn: 4, spent }
}

// Returns whether a chunk of tag `tag` that ends after `turn` lacks a chunk that must stand in it.
pub fn required_missing(tag: Tag, turn: usize) -> bool
    ensures { result ≡ required_between (nesting tag) turn end }
{
    let so_far = reached(turn, false);
    owes(tag, so_far)
}

// Returns whether a chunk of tag `inner` may stand inside one of tag `tag`, after `turn` and `spent`, and how far the nesting rule comes with it.
pub fn stands(tag: Tag, turn: usize, spent: bool, inner: Tag) -> Option<Reached>
    ensures { result ≡ permit_of (next (nesting tag) (nesting tag) (reached_at turn spent) inner) }
{
    let so_far = reached(turn, spent);
    is_permitted(tag, so_far, inner)
}
