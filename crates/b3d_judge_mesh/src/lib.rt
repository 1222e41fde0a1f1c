// Judges a MESH: its brush id, its VRTS and its TRIS.
#![tactic(auto)]

ghost use Rattle.std.specs.Prelude.{◌≤◌, ◌+◌, ◌≡◌, true, length};
ghost use Rattle.wire.specs.Cursors.{left};
ghost use Rattle.layout.specs.Rows.{most_bytes};
ghost use Rattle.b3d_spec.specs.declared.Tag.TheVariants.{MESH};
ghost use Rattle.b3d_spec.specs.Parse.{read_vertices, read_sets, read_mesh};
ghost use Rattle.b3d_judge_tally.specs.Tally.{plus, sets_tally, vertices_tally, Within};
ghost use Rattle.b3d_spec_chunk_places.specs.Places.{Body, rest_in, Among};
ghost use Rattle.b3d_judge_tally.specs.Answers.{Judges};
ghost use Rattle.b3d_spec.specs.Nesting.{start, reached_at};
ghost use Rattle.b3d_spec.specs.Tables.{vertex_width};
ghost use Rattle.b3d_judge_mesh.specs.Answers.{read_after, read_inside, Meshes};

use b3d_chunk_next_allowed::Enclosed;
use b3d_judge_tally::Tally;
use b3d_rule_nesting_order::Reached;
use b3d_spec::{Mode, Tag};
use layout::{Refusal, refusals};
use wire::Cursor;

// How far the chunks inside a MESH have come after its VRTS.
const VRTS_READ: Reached = Reached {
    turn: 1,
    spent: true,
};

// Judges the TRIS chunks from the cursor `from` to the end of a MESH whose header is at `at`, with this number of `brushes` and `vertices`. Returns their
// tally, or the first refusal: 8 at `at` where there is none.
pub fn judge_sets(
    s: &[u8],
    at: usize,
    from: Cursor,
    brushes: usize,
    vertices: usize,
) -> Result<Tally, Refusal>
    requires { Among at from (length s.now) }
    ensures { Judges sets_tally (read_sets brushes vertices (rest_in s.now MESH at (reached_at 1 true) from)) from.at from.end result }
{
    let mut c = from;
    let mut q = VRTS_READ;
    let mut m = b3d_judge_tally::none();
    loop {
        let found = b3d_chunk_cursor::next_chunk(s, c);
        let Some(
            Enclosed {
                at: p,
                body,
                next,
                reached,
                ..
            },
        ) = b3d_chunk_next_allowed::next_inside(s, c, found, Tag::MESH, at, q)?
        else {
            return Ok(m);
        };
        let t = b3d_judge_bodies::judge_triangles(s, p, body, brushes, vertices)?;
        m = b3d_judge_tally::plus(m, t);
        q = reached;
        c = next;
    }
}

// Returns the tally of a mesh of `n` vertices of `words` words each, and of its TRIS, `sets`.
pub fn mesh_rows(n: usize, words: usize, sets: Tally) -> Tally
    requires { (n ≤ most_bytes) × (words ≤ vertex_width) × Within (vertices_tally n words) most_bytes × Within sets most_bytes }
    ensures { result ≡ plus (vertices_tally n words) sets }
{
    b3d_judge_tally::plus(b3d_judge_tally::vertices(n, words), sets)
}

// Judges a VRTS with its header at `p` and its `body`, and the TRIS from `next` on, of a MESH whose header is at `at`. Returns the mesh's vertices and tally,
// or the first refusal.
fn judge_shape(
    s: &[u8],
    at: usize,
    p: usize,
    body: Cursor,
    next: Cursor,
    brushes: usize,
    mode: Mode,
) -> Result<(usize, Tally), Refusal>
    requires { Body p body (length s.now) × Among at next (length s.now) × (at + 12 ≤ p) × (body.end ≡ next.at) }
    ensures { Meshes (read_after brushes 0 (read_vertices mode p (left body s.now))
        (rest_in s.now MESH at (reached_at 1 true) next)) at next.end result }
{
    let (n, words) = b3d_judge_bodies::judge_vertices(s, p, body, mode)?;
    let t = judge_sets(s, at, next, brushes, n)?;
    Ok((n, mesh_rows(n, words, t)))
}

// Judges the chunks inside a MESH whose header is at `at`, from the cursor `from` on: its VRTS, then its TRIS. Returns the mesh's vertices and tally, or the
// first refusal.
fn judge_inside(
    s: &[u8],
    at: usize,
    from: Cursor,
    brushes: usize,
    mode: Mode,
) -> Result<(usize, Tally), Refusal>
    requires { Among at from (length s.now) × (at + 12 ≤ from.at) }
    ensures { Meshes (read_inside mode brushes 0 (rest_in s.now MESH at start from)) at from.end result }
{
    let found = b3d_chunk_cursor::next_chunk(s, from);
    // No mesh ends here: it owes its VRTS.
    let Some(
        Enclosed {
            at: p,
            body,
            next,
            ..
        },
    ) = b3d_chunk_next_allowed::first_inside(s, from, found, Tag::MESH, at)?
    else {
        return Ok((0, b3d_judge_tally::none()));
    };
    judge_shape(s, at, p, body, next, brushes, mode)
}

// Judges the `body` of a MESH whose header is at `at`: its brush id, -1 or below `brushes`, then the chunks inside it. Returns its vertices and tally, or the
// first refusal.
pub fn judge_mesh(
    s: &[u8],
    at: usize,
    body: Cursor,
    brushes: usize,
    mode: Mode,
) -> Result<(usize, Tally), Refusal>
    requires { Body at body (length s.now) }
    ensures { Meshes (read_mesh mode brushes at (left body s.now)) at body.end result }
{
    let Some((brush, c)) = body.number(s) else {
        return Err(Refusal {
            number: refusals::CUT_ITEM,
            place: body.at,
        });
    };
    if !shared_ids::id_valid(brush, brushes, true) {
        return Err(Refusal {
            number: refusals::NO_SUCH_ID,
            place: body.at,
        });
    }
    judge_inside(s, at, c, brushes, mode)
}
