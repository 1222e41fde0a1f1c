// Judges a MESH as it is mended: its VRTS, its TRIS without the triangles that are taken out, no spare bytes.
#![tactic(auto)]

ghost use Rattle.std.specs.Prelude.{◌≤◌, ◌+◌, ◌≡◌, true, length};
ghost use Rattle.wire.specs.Cursors.{left};
ghost use Rattle.b3d_spec.specs.declared.Mode.TheVariants.{Lenient};
ghost use Rattle.b3d_spec.specs.declared.Tag.TheVariants.{MESH};
ghost use Rattle.b3d_spec.specs.Parse.{read_vertices};
ghost use Rattle.b3d_judge_tally.specs.Tally.{sets_tally};
ghost use Rattle.b3d_spec_chunk_places.specs.Places.{Body, rest_in, Among};
ghost use Rattle.b3d_judge_tally.specs.Answers.{Judges};
ghost use Rattle.b3d_spec.specs.Nesting.{start, reached_at};
ghost use Rattle.b3d_judge_mesh.specs.Answers.{Meshes};
ghost use Rattle.b3d_mend_judge_items.specs.Lax.{lax_sets, lax_mesh};
ghost use Rattle.b3d_mend_judge_mesh.specs.Parts.{lax_after, lax_within};

use b3d_chunk_next_allowed::Enclosed;
use b3d_judge_tally::Tally;
use b3d_rule_nesting_order::Reached;
use b3d_spec::{Mode, Tag};
use layout::{Refusal, refusals};
use wire::Cursor;

// How far the chunks of a mesh have come after its VRTS.
const VRTS_READ: Reached = Reached {
    turn: 1,
    spent: true,
};

// Judges the TRIS chunks of a mesh of `vertices` vertices whose header is at `at`: one or more.
fn lax_sets(s: &[u8], at: usize, from: Cursor, vertices: usize) -> Result<Tally, Refusal>
    requires { Among at from (length s.now) }
    ensures { Judges sets_tally (lax_sets vertices (rest_in s.now MESH at (reached_at 1 true) from)) from.at from.end result }
{
    let mut c = from;
    let mut q = VRTS_READ;
    let mut m = b3d_judge_tally::none();
    loop {
        let found = b3d_chunk_cursor::next_chunk(s, c);
        let Some(
            Enclosed {
                at: p,
                body,
                next,
                reached,
                ..
            },
        ) = b3d_chunk_next_allowed::next_inside(s, c, found, Tag::MESH, at, q)?
        else {
            return Ok(m);
        };
        let t = b3d_mend_judge_items::lax_triangles(s, p, body, vertices)?;
        m = b3d_judge_tally::plus(m, t);
        q = reached;
        c = next;
    }
}

// Judges a VRTS whose header is at `p`, and the TRIS chunks from `next` on, of a mesh whose header is at `at`.
fn lax_shape(
    s: &[u8],
    at: usize,
    p: usize,
    body: Cursor,
    next: Cursor,
) -> Result<(usize, Tally), Refusal>
    requires { Body p body (length s.now) × Among at next (length s.now) × (at + 12 ≤ p) × (body.end ≡ next.at) }
    ensures { Meshes (lax_after 0 (read_vertices Lenient p (left body s.now))
        (rest_in s.now MESH at (reached_at 1 true) next)) at next.end result }
{
    let (n, words) = b3d_judge_bodies::judge_vertices(s, p, body, Mode::Lenient)?;
    let t = lax_sets(s, at, next, n)?;
    Ok((n, b3d_judge_mesh::mesh_rows(n, words, t)))
}

// Judges the VRTS and the TRIS chunks of a mesh whose header is at `at`, from its first chunk on.
fn lax_inside(s: &[u8], at: usize, from: Cursor) -> Result<(usize, Tally), Refusal>
    requires { Among at from (length s.now) × (at + 12 ≤ from.at) }
    ensures { Meshes (lax_within 0 (rest_in s.now MESH at start from)) at from.end result }
{
    let found = b3d_chunk_cursor::next_chunk(s, from);
    // No mesh ends here: it owes its VRTS.
    let Some(
        Enclosed {
            at: p,
            body,
            next,
            ..
        },
    ) = b3d_chunk_next_allowed::first_inside(s, from, found, Tag::MESH, at)?
    else {
        return Ok((0, b3d_judge_tally::none()));
    };
    lax_shape(s, at, p, body, next)
}

// Judges the MESH whose header is at `at`: its brush id, whatever it is, then the chunks inside it without spare bytes.
pub fn lax_mesh(s: &[u8], at: usize, body: Cursor) -> Result<(usize, Tally), Refusal>
    requires { Body at body (length s.now) }
    ensures { Meshes (lax_mesh at (left body s.now)) at body.end result }
{
    let Some((_, c)) = body.number(s) else {
        return Err(Refusal {
            number: refusals::CUT_ITEM,
            place: body.at,
        });
    };
    let d = b3d_mend_judge_items::trimmed(s, c);
    lax_inside(s, at, d)
}
