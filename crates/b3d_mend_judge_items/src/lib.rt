// What the mender's judge leaves out: items with an id that names nothing, and spare bytes after the last chunk. `specs/Lax` is the mending read as far
// as rows are counted, with the laws that it has the refusals and the rows of the mending read.
#![tactic(auto)]

ghost use Rattle.std.specs.Prelude.{length, ◌≡◌, ◌+◌, ◌-◌, ◌*◌, ◌<◌, ◌≤◌};
ghost use Rattle.wire.specs.Cursors.{Inside, left};
ghost use Rattle.b3d_mend_judge_items.specs.Trimmed.{Trimmed};
ghost use Rattle.layout.specs.Parts.{words_of};
ghost use Rattle.shared_ids.specs.Ids.{id_row};
ghost use Rattle.b3d_judge_items.specs.Items.{counted, CountedIn};
ghost use Rattle.b3d_spec_chunk_places.specs.Places.{Body};
ghost use Rattle.b3d_judge_tally.specs.Answers.{Judges};
ghost use Rattle.b3d_judge_tally.specs.Tally.{set_tally, bone_tally};
ghost use Rattle.b3d_mend_spec.specs.Mend.{all_hold};
ghost use Rattle.b3d_mend_judge_items.specs.Lax.{lax_items, lax_triangles, lax_bone};
ghost use Rattle.b3d_mend_judge_items.specs.Ones.{one_if};

use b3d_judge_tally::Tally;
use layout::{Refusal, refusals};
use wire::{Cursor, Header};

// Returns `from` without the 1 to 7 bytes after its last chunk; `from` itself where there are none, or where a chunk's length passes its end.
pub fn trimmed(s: &[u8], from: Cursor) -> Cursor
    requires { Inside from (length s.now) }
    ensures { Trimmed s.now from result }
{
    let start = from.at;
    let mut c = from;
    loop {
        match c.header(s) {
            Header::End => {
                return from;
            }
            Header::Cut => {
                if c.end - c.at < 8 {
                    return Cursor {
                        at: start,
                        end: c.at,
                    };
                }
                return from;
            }
            Header::Whole { next, .. } => {
                c = next;
            }
        }
    }
}

// Returns 1 if the first `ids` of the `words` words at `c` are all below `limit`, else 0.
pub fn kept_one(s: &[u8], c: Cursor, words: usize, ids: usize, limit: usize) -> usize
    requires { Inside c (length s.now) × (c.at + 4 * words ≤ c.end) × (words ≤ 64) × (ids ≤ words) }
    ensures { (result ≡ one_if (all_hold (id_row ids (words - ids) limit) (words_of words (left c s.now)))) × (result ≤ 1) }
{
    let good = shared_ids::first_invalid(s, c, ids, limit, false);
    if good < ids {
        return 0;
    }
    1
}

// Counts the items of `words` words that `from` has left and that stay: the first `ids` words of each are below `limit`. Answers 5 at an item that is cut.
fn kept_items(
    s: &[u8],
    from: Cursor,
    words: usize,
    ids: usize,
    limit: usize,
) -> Result<usize, Refusal>
    requires { Inside from (length s.now) × (0 < words) × (words ≤ 64) × (ids ≤ words) }
    ensures { (result ≡ counted (lax_items (id_row ids (words - ids) limit) from.at (left from s.now))) × CountedIn from words result }
{
    let end = from.end;
    let size = 4 * words;
    let mut at = from.at;
    let mut count: usize = 0;
    while at < end {
        if end - at < size {
            return Err(Refusal {
                number: refusals::CUT_ITEM,
                place: at,
            });
        }
        let one = kept_one(s, Cursor { at, end }, words, ids, limit);
        at += size;
        count += one;
    }
    Ok(count)
}

// Judges the BONE whose header is at `at`: its weights that name one of `vertices` vertices are counted.
pub fn lax_bone(s: &[u8], at: usize, body: Cursor, vertices: usize) -> Result<Tally, Refusal>
    requires { Body at body (length s.now) }
    ensures { Judges bone_tally (lax_bone vertices at (left body s.now)) at body.end result }
{
    let count = kept_items(s, body, 2, 1, vertices)?;
    Ok(b3d_judge_tally::weights(count))
}

// Judges the TRIS whose header is at `at`, whatever its brush: its triangles that name only the `vertices` vertices of the mesh are counted.
pub fn lax_triangles(s: &[u8], at: usize, body: Cursor, vertices: usize) -> Result<Tally, Refusal>
    requires { Body at body (length s.now) }
    ensures { Judges set_tally (lax_triangles vertices at (left body s.now)) at body.end result }
{
    let Some((_, items)) = body.number(s) else {
        return Err(Refusal {
            number: refusals::CUT_ITEM,
            place: body.at,
        });
    };
    let count = kept_items(s, items, 3, 3, vertices)?;
    Ok(b3d_judge_tally::triangles(count))
}
