// Judges a NODE without the nodes below it: its name and floats, its kind (a MESH, a BONE or neither), its KEYS and ANIM.
#![tactic(auto)]

ghost use Rattle.std.specs.Prelude.{◌≤◌, ◌+◌, ◌≡◌, false, length};
ghost use Rattle.wire.specs.Cursors.{left};
ghost use Rattle.layout.specs.Rows.{most_bytes};
ghost use Rattle.b3d_spec.specs.declared.Tag.TheVariants.{NODE};
ghost use Rattle.b3d_spec.specs.Rules.{bone_limit, bone_limit_from};
ghost use Rattle.b3d_spec.specs.Nesting.{start, reached_at};
ghost use Rattle.b3d_spec.specs.Parse.{read_kind};
ghost use Rattle.b3d_judge_tally.specs.Tally.{plus, head_tally, Within};
ghost use Rattle.b3d_spec_chunk_places.specs.Places.{Body, rest_in, Among};
ghost use Rattle.b3d_judge_node.specs.Answers.{read_parts, read_own, Kinds, Parted, Owns, above_of};

use b3d_chunk_cursor::Named;
use b3d_chunk_next_allowed::Enclosed;
use b3d_judge_tally::Tally;
use b3d_spec::{Mode, Tag};
use layout::{Refusal, refusals};
use wire::Cursor;

// Returns how many vertices a bone of a node may name (E3), `a` being what holds by the nodes above it: `None` for the root, above which there is no node, and
// then 0.
pub fn bone_vertices(a: Option<usize>) -> usize
    ensures { result ≡ bone_limit (above_of a) }
{
    let Some(n) = a else {
        return 0;
    };
    n
}

// Returns how many vertices a bone below a node may name (E3): the node's `own` if it is the root or has an ANIM (`anim`), else what holds above it, `a`.
pub fn bones_below(a: Option<usize>, anim: bool, own: usize) -> Option<usize>
    ensures { above_of result ≡ bone_limit_from (above_of a) anim own }
{
    let Some(n) = a else {
        return Some(own);
    };
    if anim {
        return Some(own);
    }
    Some(n)
}

// Judges a MESH or a BONE, if it comes first from the cursor `from` on, inside a NODE whose header is at `at`; a bone may name `bones` vertices. Returns the
// vertices of the node's mesh, 0 without one, the tally and the cursor after it; the cursor `from` where neither comes first; or the first refusal.
fn judge_kind(
    s: &[u8],
    at: usize,
    from: Cursor,
    brushes: usize,
    bones: usize,
    mode: Mode,
) -> Result<(usize, Tally, Cursor), Refusal>
    requires { Among at from (length s.now) }
    ensures { Kinds (read_kind mode brushes bones (rest_in s.now NODE at start from))
        (rest_in s.now NODE at (reached_at 2 false)) from result }
{
    let found = b3d_chunk_cursor::next_chunk(s, from);
    let Some(
        Enclosed {
            tag,
            at: p,
            body,
            next,
            ..
        },
    ) = b3d_chunk_next_allowed::first_inside(s, from, found, Tag::NODE, at)?
    else {
        return Ok((0, b3d_judge_tally::none(), from));
    };
    match tag {
        Tag::MESH => {
            let (own, t) = b3d_judge_mesh::judge_mesh(s, p, body, brushes, mode)?;
            Ok((own, t, next))
        }
        Tag::BONE => {
            let t = b3d_judge_bodies::judge_bone(s, p, body, bones)?;
            Ok((0, t, next))
        }
        _ => Ok((0, b3d_judge_tally::none(), from)),
    }
}

// Returns the tally of a node without the nodes below it: its NODE, its `kind`, its KEYS and ANIM, `moves`.
pub fn own_rows(kind: Tally, moves: Tally) -> Tally
    requires { Within kind most_bytes × Within (plus head_tally kind) most_bytes × Within moves most_bytes }
    ensures { result ≡ plus (plus head_tally kind) moves }
{
    b3d_judge_tally::plus(b3d_judge_tally::plus(b3d_judge_tally::head(), kind), moves)
}

// Judges the chunks inside a NODE whose header is at `at`, from the cursor `from` up to the nodes below it. Returns what holds for bones below it, its tally
// and the cursor at its children, or the first refusal.
fn judge_parts(
    s: &[u8],
    at: usize,
    from: Cursor,
    brushes: usize,
    above: Option<usize>,
    mode: Mode,
) -> Result<(Option<usize>, Tally, Cursor), Refusal>
    requires { Among at from (length s.now) × (at + 49 ≤ from.at) }
    ensures { Parted (above_of above) (read_parts mode brushes (bone_limit (above_of above)) (rest_in s.now NODE at start from))
        (rest_in s.now NODE at (reached_at 3 false)) at from result }
{
    let (own, k, c) = judge_kind(s, at, from, brushes, bone_vertices(above), mode)?;
    let (anim, m, d) = b3d_judge_animation::judge_animation(s, at, c)?;
    Ok((bones_below(above, anim, own), own_rows(k, m), d))
}

// Judges the `body` of a NODE whose header is at `at`, without the nodes below it; `above` is what holds for its bones. Returns what holds for bones below
// it, its tally and the cursor at its children, or the first refusal: 5 at the body where its name or floats are cut.
pub fn judge_own(
    s: &[u8],
    at: usize,
    body: Cursor,
    brushes: usize,
    above: Option<usize>,
    mode: Mode,
) -> Result<(Option<usize>, Tally, Cursor), Refusal>
    requires { Body at body (length s.now) }
    ensures { Owns (above_of above) (read_own mode brushes (above_of above) at (left body s.now))
        (rest_in s.now NODE at (reached_at 3 false)) at body result }
{
    let Some(Named { next, .. }) = b3d_chunk_cursor::named_row(s, body, 10) else {
        return Err(Refusal {
            number: refusals::CUT_ITEM,
            place: body.at,
        });
    };
    judge_parts(s, at, next, brushes, above, mode)
}
