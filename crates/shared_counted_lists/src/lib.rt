// Lists after a count and names after a length, read by cursor in any format: where they end, or the first refusal.
#![tactic(auto)]

ghost use Rattle.std.specs.Prelude.{◌+◌, ◌-◌, ◌*◌, ◌<◌, ◌≤◌, length};
ghost use Rattle.wire.specs.Cursors.{Inside, left};
ghost use Rattle.layout.specs.Parts.{row};
ghost use Rattle.layout.specs.Counted.{sized, times};
ghost use Rattle.shared_ids.specs.Ids.{id_row, link_row};
ghost use Rattle.shared_counted_lists.specs.Runs.{Runs};

use layout::{Refusal, refusals};
use wire::Cursor;

// Reads `count` rows of `words` words, the first `ids` words of each being ids below `limit`. Returns the cursor after them, 5 at the first row that is cut,
// or 7 at the first id that names nothing. A count that no file can hold ends with the bytes: each turn passes a row or refuses.
pub fn id_rows(
    s: &[u8],
    from: Cursor,
    count: usize,
    words: usize,
    ids: usize,
    limit: usize,
) -> Result<Cursor, Refusal>
    requires { Inside from (length s.now) × (0 < words) × (words ≤ 64) × (ids ≤ words) }
    ensures { Runs (times count (row (id_row ids (words - ids) limit)) from.at (left from s.now)) from (count * (4 * words)) result }
{
    let end = from.end;
    let size = 4 * words;
    let mut at = from.at;
    for _ in 0..count {
        if end - at < size {
            return Err(Refusal {
                number: refusals::CUT_ITEM,
                place: at,
            });
        }
        let good = shared_ids::first_invalid(s, Cursor { at, end }, ids, limit, false);
        if good < ids {
            return Err(Refusal {
                number: refusals::NO_SUCH_ID,
                place: at + 4 * good,
            });
        }
        at += size;
    }
    Ok(Cursor { at, end })
}

// Reads a row of `front` words, an id below `limit` or NONE, `between` words and a count. Returns the cursor after it; 5 at the row if it is cut, 7 at an id
// that names nothing, or 6 at a negative count.
pub fn link_row(
    s: &[u8],
    c: Cursor,
    front: usize,
    between: usize,
    limit: usize,
) -> Result<Cursor, Refusal>
    requires { Inside c (length s.now) × (front ≤ 64) × (between ≤ 64) }
    ensures { Runs (row (link_row front between limit) c.at (left c s.now)) c (4 * (front + between + 2)) result }
{
    let at = c.at;
    let end = c.end;
    let size = 4 * (front + between + 2);
    if end - at < size {
        return Err(Refusal {
            number: refusals::CUT_ITEM,
            place: at,
        });
    }
    let id = at + 4 * front;
    if !shared_ids::id_valid(wire::number_at(s, id), limit, true) {
        return Err(Refusal {
            number: refusals::NO_SUCH_ID,
            place: id,
        });
    }
    let last = id + 4 + 4 * between;
    if 2147483647 < wire::number_at(s, last) {
        return Err(Refusal {
            number: refusals::RANGE,
            place: last,
        });
    }
    Ok(Cursor { at: at + size, end })
}

// Reads a name after its length: the length is an item, the name's bytes are the next. Returns the cursor after it; 5 at the one that is cut, or 6 at a
// negative length.
pub fn pass_name(s: &[u8], c: Cursor) -> Result<Cursor, Refusal>
    requires { Inside c (length s.now) }
    ensures { Runs (sized c.at (left c s.now)) c 4 result }
{
    let Some((stored, name)) = c.number(s) else {
        return Err(Refusal {
            number: refusals::CUT_ITEM,
            place: c.at,
        });
    };
    if 2147483647 < stored {
        return Err(Refusal {
            number: refusals::RANGE,
            place: c.at,
        });
    }
    let n = wire::size(stored);
    let at = name.at;
    let end = name.end;
    if end - at < n {
        return Err(Refusal {
            number: refusals::CUT_ITEM,
            place: at,
        });
    }
    Ok(Cursor { at: at + n, end })
}
