// Judges a NODE as it is mended, without the nodes below it: its name and place, its kind (a MESH, a BONE or neither), its KEYS and ANIM.
#![tactic(auto)]

ghost use Rattle.std.specs.Prelude.{◌≤◌, ◌+◌, false, length};
ghost use Rattle.wire.specs.Cursors.{left};
ghost use Rattle.b3d_spec.specs.declared.Tag.TheVariants.{NODE};
ghost use Rattle.b3d_spec.specs.Rules.{bone_limit};
ghost use Rattle.b3d_spec.specs.Nesting.{start, reached_at};
ghost use Rattle.b3d_spec_chunk_places.specs.Places.{Body, rest_in, Among};
ghost use Rattle.b3d_judge_node.specs.Answers.{Kinds, Parted, above_of};
ghost use Rattle.b3d_mend_judge_items.specs.Lax.{lax_kind};
ghost use Rattle.b3d_mend_judge_node.specs.Answers.{lax_parts, lax_own, Owns};

use b3d_chunk_cursor::Named;
use b3d_chunk_next_allowed::Enclosed;
use b3d_judge_tally::Tally;
use b3d_spec::Tag;
use layout::{Refusal, refusals};
use wire::Cursor;

// Judges a MESH or a BONE, if one comes first in a NODE whose header is at `at`; weights may name `bones` vertices.
fn lax_kind(
    s: &[u8],
    at: usize,
    from: Cursor,
    bones: usize,
) -> Result<(usize, Tally, Cursor), Refusal>
    requires { Among at from (length s.now) }
    ensures { Kinds (lax_kind bones (rest_in s.now NODE at start from)) (rest_in s.now NODE at (reached_at 2 false)) from result }
{
    let found = b3d_chunk_cursor::next_chunk(s, from);
    let Some(
        Enclosed {
            tag,
            at: p,
            body,
            next,
            ..
        },
    ) = b3d_chunk_next_allowed::first_inside(s, from, found, Tag::NODE, at)?
    else {
        return Ok((0, b3d_judge_tally::none(), from));
    };
    match tag {
        Tag::MESH => {
            let (own, t) = b3d_mend_judge_mesh::lax_mesh(s, p, body)?;
            Ok((own, t, next))
        }
        Tag::BONE => {
            let t = b3d_mend_judge_items::lax_bone(s, p, body, bones)?;
            Ok((0, t, next))
        }
        _ => Ok((0, b3d_judge_tally::none(), from)),
    }
}

// Judges the chunks of a NODE whose header is at `at` up to the nodes below it.
fn lax_parts(
    s: &[u8],
    at: usize,
    from: Cursor,
    above: Option<usize>,
) -> Result<(Option<usize>, Tally, Cursor), Refusal>
    requires { Among at from (length s.now) × (at + 49 ≤ from.at) }
    ensures { Parted (above_of above) (lax_parts (bone_limit (above_of above)) (rest_in s.now NODE at start from))
        (rest_in s.now NODE at (reached_at 3 false)) at from result }
{
    let (own, k, c) = lax_kind(s, at, from, b3d_judge_node::bone_vertices(above))?;
    let (anim, m, d) = b3d_judge_animation::judge_animation(s, at, c)?;
    Ok((
        b3d_judge_node::bones_below(above, anim, own),
        b3d_judge_node::own_rows(k, m),
        d,
    ))
}

// Judges a NODE whose header is at `at`, without spare bytes and without the nodes below it.
pub fn lax_own(
    s: &[u8],
    at: usize,
    body: Cursor,
    above: Option<usize>,
) -> Result<(Option<usize>, Tally, Cursor), Refusal>
    requires { Body at body (length s.now) }
    ensures { Owns (above_of above) (lax_own (above_of above) at (left body s.now))
        (rest_in s.now NODE at (reached_at 3 false)) at body.end result }
{
    let Some(Named { next, .. }) = b3d_chunk_cursor::named_row(s, body, 10) else {
        return Err(Refusal {
            number: refusals::CUT_ITEM,
            place: body.at,
        });
    };
    let d = b3d_mend_judge_items::trimmed(s, next);
    lax_parts(s, at, d, above)
}
