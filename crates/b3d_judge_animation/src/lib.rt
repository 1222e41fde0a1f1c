// Judges the KEYS and the ANIM of a node.
#![tactic(auto)]

ghost use Rattle.std.specs.Prelude.{◌≡◌, false, length};
ghost use Rattle.layout.specs.Rows.{most_bytes};
ghost use Rattle.b3d_spec.specs.declared.Tag.TheVariants.{NODE};
ghost use Rattle.b3d_spec.specs.Scene.{no_anim};
ghost use Rattle.b3d_spec.specs.Parse.{read_animation};
ghost use Rattle.b3d_judge_tally.specs.Tally.{plus, anim_tally, Within};
ghost use Rattle.b3d_spec.specs.Nesting.{reached_at};
ghost use Rattle.b3d_spec_chunk_places.specs.Places.{rest_in, Among};
ghost use Rattle.b3d_judge_animation.specs.Answers.{anim_of, Motions};

use b3d_chunk_next_allowed::Enclosed;
use b3d_judge_tally::Tally;
use b3d_rule_nesting_order::Reached;
use b3d_spec::Tag;
use layout::{Refusal, refusals};
use wire::Cursor;

// How far the chunks inside a NODE have come after its MESH or BONE, or without one.
const KIND_READ: Reached = Reached {
    turn: 2,
    spent: false,
};

// Returns the tally `m` of KEYS, with an ANIM added where one was `seen`.
fn with_anim(m: Tally, seen: bool) -> Tally
    requires { Within m most_bytes }
    ensures { result ≡ plus m (anim_tally (anim_of seen)) }
{
    if seen {
        return b3d_judge_tally::plus(m, b3d_judge_tally::bytes(20));
    }
    b3d_judge_tally::plus(m, b3d_judge_tally::none())
}

// Judges KEYS and ANIM, in any mix, from the cursor `from` up to the first NODE or the end of the NODE whose header is at `at`. Returns whether there is an
// ANIM, their tally and the cursor after them, or the first refusal: 5 at the body of an ANIM whose length is not 12.
pub fn judge_animation(s: &[u8], at: usize, from: Cursor) -> Result<(bool, Tally, Cursor), Refusal>
    requires { Among at from (length s.now) }
    ensures { Motions (read_animation no_anim (rest_in s.now NODE at (reached_at 2 false) from))
        (rest_in s.now NODE at (reached_at 3 false)) from result }
{
    let mut c = from;
    let mut q = KIND_READ;
    let mut m = b3d_judge_tally::none();
    loop {
        let found = b3d_chunk_cursor::next_chunk(s, c);
        let Some(
            Enclosed {
                tag,
                at: p,
                body,
                next,
                reached,
            },
        ) = b3d_chunk_next_allowed::next_inside(s, c, found, Tag::NODE, at, q)?
        else {
            return Ok((q.spent, with_anim(m, q.spent), c));
        };
        match tag {
            Tag::KEYS => {
                let t = b3d_judge_bodies::judge_keys(s, p, body)?;
                m = b3d_judge_tally::plus(m, t);
                q = reached;
                c = next;
            }
            Tag::ANIM => {
                if body.end - body.at != 12 {
                    return Err(Refusal {
                        number: refusals::CUT_ITEM,
                        place: body.at,
                    });
                }
                q = reached;
                c = next;
            }
            _ => {
                return Ok((q.spent, with_anim(m, q.spent), c));
            }
        }
    }
}
