// Counts the items of a chunk of which some words are colours, and looks at each colour.
#![tactic(auto)]

ghost use Rattle.std.specs.Prelude.{◌≡◌, ◌+◌, ◌-◌, ◌*◌, ◌<◌, ◌≤◌, length};
ghost use Rattle.wire.specs.Cursors.{Inside, left};
ghost use Rattle.layout.specs.Parts.{words_of};
ghost use Rattle.layout.specs.Rules.{unit};
ghost use Rattle.shared_ids.specs.Ids.{first_bad};
ghost use Rattle.b3d_judge_items.specs.Items.{CountedIn, colour_items, counted};

use layout::{Refusal, refusals};
use wire::Cursor;

// Returns how many of the `n` words at `c` are colours from 0 to 1 before the first that is not; `n` where each is.
pub fn first_bad_colour(s: &[u8], c: Cursor, n: usize) -> usize
    requires { Inside c (length s.now) × (c.at + 4 * n ≤ c.end) × (n ≤ 64) }
    ensures { (result ≡ first_bad unit (words_of n (left c s.now))) × (result ≤ n) }
{
    let start = c.at;
    for i in 0..n {
        let bits = wire::number_at(s, start + 4 * i);
        if !b3d_rule_colour::colour_ok(bits) {
            return i;
        }
    }
    n
}

// Counts the items of `words` words that `from` has left. Of each, `n` words behind the first `before` are colours. Answers 5 at an item that is cut, 6 at
// the first colour that is not from 0 to 1.
pub fn colour_items(
    s: &[u8],
    from: Cursor,
    words: usize,
    before: usize,
    n: usize,
) -> Result<usize, Refusal>
    requires { Inside from (length s.now) × (0 < words) × (words ≤ 64) × (before + n ≤ words) }
    ensures { (result ≡ counted (colour_items before n (words - (before + n)) from.at (left from s.now))) × CountedIn from words result }
{
    let end = from.end;
    let item = 4 * words;
    let mut at = from.at;
    let mut count: usize = 0;
    while at < end {
        if end - at < item {
            return Err(Refusal {
                number: refusals::CUT_ITEM,
                place: at,
            });
        }
        let first = at + 4 * before;
        let good = first_bad_colour(s, Cursor { at: first, end }, n);
        if good < n {
            return Err(Refusal {
                number: refusals::RANGE,
                place: first + 4 * good,
            });
        }
        at += item;
        count += 1;
    }
    Ok(count)
}
