// Counts the items of a chunk: by one division where no word is looked at, one after the other where ids are.
#![tactic(auto)]

ghost use Rattle.std.specs.Prelude.{◌≡◌, ◌-◌, ◌<◌, ◌≤◌, length};
ghost use Rattle.wire.specs.Cursors.{Inside, left};
ghost use Rattle.b3d_judge_items.specs.Items.{divided_at, CountedIn, id_items, counted};

use layout::{Refusal, refusals};
use wire::Cursor;

// Counts the items of `words` words that `c` has left, by one division; no word is looked at. Answers 5 at an item that is cut, 0 items where no byte is
// left.
pub fn whole_items(c: Cursor, words: usize) -> Result<usize, Refusal>
    requires { (c.at ≤ c.end) × (0 < words) × (words ≤ 64) }
    ensures { (result ≡ divided_at c words) × CountedIn c words result }
{
    let at = c.at;
    let end = c.end;
    let size = 4 * words;
    let count = (end - at) / size;
    if (end - at) % size == 0 {
        return Ok(count);
    }
    Err(Refusal {
        number: refusals::CUT_ITEM,
        place: at + count * size,
    })
}

// Counts the items of `words` words that `from` has left. The first `ids` words of each are ids below `limit`, none absent. Answers 5 at an item that is cut,
// 7 at the first id that names nothing.
pub fn id_items(
    s: &[u8],
    from: Cursor,
    words: usize,
    ids: usize,
    limit: usize,
) -> Result<usize, Refusal>
    requires { Inside from (length s.now) × (0 < words) × (words ≤ 64) × (ids ≤ words) }
    ensures { (result ≡ counted (id_items ids (words - ids) limit from.at (left from s.now))) × CountedIn from words result }
{
    let end = from.end;
    let size = 4 * words;
    let mut at = from.at;
    let mut count: usize = 0;
    while at < end {
        if end - at < size {
            return Err(Refusal {
                number: refusals::CUT_ITEM,
                place: at,
            });
        }
        let good = shared_ids::first_invalid(s, Cursor { at, end }, ids, limit, false);
        if good < ids {
            return Err(Refusal {
                number: refusals::NO_SUCH_ID,
                place: at + 4 * good,
            });
        }
        at += size;
        count += 1;
    }
    Ok(count)
}
