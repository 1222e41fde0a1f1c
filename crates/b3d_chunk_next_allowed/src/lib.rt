// The next known chunk inside a chunk, by cursor. Of a file at hand refusals 4 and 8 are given here, by `by_permit`, and nowhere else.
#![tactic(auto)]

ghost use Rattle.std.specs.Prelude.{◌≡◌, ◌≤◌, length};
ghost use Rattle.wire.specs.Cursors.{Inside};
ghost use Rattle.b3d_chunk_cursor.specs.Chunks.{NextIs};
ghost use Rattle.b3d_rule_nesting_order.specs.Turns.{first};
ghost use Rattle.b3d_chunk_next_allowed.specs.Steps.{permit_for, EnclosedIs};

use b3d_chunk_cursor::Next;
use b3d_rule_nesting_order::Reached;
use b3d_spec::Tag;
use layout::{Refusal, refusals};
use wire::Cursor;

// The next known chunk inside one that encloses it: its tag, the place of its header, its body, the cursor after it, and how far the chunks
// have come with it.
#[derive(Clone, Copy)]
pub struct Enclosed {
    pub tag: Tag,
    pub at: usize,
    pub body: Cursor,
    pub next: Cursor,
    pub reached: Reached,
}

// No chunk was read yet.
const FIRST: Reached = Reached {
    turn: 0,
    spent: false,
};

// Returns what the table permits of `found` inside a chunk of the tag `enclosing`, after `reached`: the chunk there, or the end of the chunks; of a cut
// header `None`.
fn permit_for(found: Next, enclosing: Tag, reached: Reached) -> Option<Reached>
    ensures { result ≡ permit_for enclosing reached found }
{
    match found {
        Next::Cut(_) => None,
        Next::Done => {
            if b3d_rule_nesting_order::owes(enclosing, reached) {
                return None;
            }
            Some(reached)
        }
        Next::Chunk { tag, .. } => b3d_rule_nesting_order::is_permitted(enclosing, reached, tag),
    }
}

// Returns the answer for `found` by its `permit`: 3 at a cut header, 4 at a chunk that may not stand there, 8 at `head`, the header of the chunk that
// encloses, where the chunks end and one that must stand is missing.
fn by_permit(
    s: &[u8],
    from: Cursor,
    found: Next,
    permit: Option<Reached>,
    enclosing: Tag,
    head: usize,
    reached: Reached,
) -> Result<Option<Enclosed>, Refusal>
    requires { NextIs s.now from found × Inside from (length s.now) × (head ≤ from.at) × (permit ≡ permit_for enclosing reached found) }
    ensures { EnclosedIs s.now enclosing head reached from result }
{
    match found {
        Next::Cut(p) => Err(Refusal {
            number: refusals::CUT_CHUNK,
            place: p,
        }),
        Next::Done => {
            let Some(_) = permit else {
                return Err(Refusal {
                    number: refusals::NO_VRTS_OR_TRIS,
                    place: head,
                });
            };
            Ok(None)
        }
        Next::Chunk {
            tag,
            at,
            body,
            next,
        } => {
            let Some(z) = permit else {
                return Err(Refusal {
                    number: refusals::NESTING,
                    place: at,
                });
            };
            Ok(Some(Enclosed {
                tag,
                at,
                body,
                next,
                reached: z,
            }))
        }
    }
}

// Returns the first known chunk inside one of the tag `enclosing` whose header is at `head`, by what was `found` from the cursor `from` on; or a refusal, or
// `None` at the end, with nothing owed.
pub fn first_inside(
    s: &[u8],
    from: Cursor,
    found: Next,
    enclosing: Tag,
    head: usize,
) -> Result<Option<Enclosed>, Refusal>
    requires { NextIs s.now from found × Inside from (length s.now) × (head ≤ from.at) }
    ensures { EnclosedIs s.now enclosing head first from result }
{
    let permit = permit_for(found, enclosing, FIRST);
    by_permit(s, from, found, permit, enclosing, head, FIRST)
}

// Returns the next known chunk inside one of the tag `enclosing` whose header is at `head`, after chunks that came to `reached`, by what was `found` from the
// cursor `from` on; or a refusal; or `None` at the end, with nothing owed.
pub fn next_inside(
    s: &[u8],
    from: Cursor,
    found: Next,
    enclosing: Tag,
    head: usize,
    reached: Reached,
) -> Result<Option<Enclosed>, Refusal>
    requires { NextIs s.now from found × Inside from (length s.now) × (head ≤ from.at) }
    ensures { EnclosedIs s.now enclosing head reached from result }
{
    let permit = permit_for(found, enclosing, reached);
    by_permit(s, from, found, permit, enclosing, head, reached)
}
