// Judges a NODE with the nodes below it: a node and its list of children call each other, at most 16 levels deep.
#![tactic(auto)]

ghost use Rattle.std.specs.Prelude.{false, length};
ghost use Rattle.wire.specs.Cursors.{left};
ghost use Rattle.b3d_spec.specs.declared.Tag.TheVariants.{NODE};
ghost use Rattle.b3d_spec.specs.Parse.{read_nodes, read_node};
ghost use Rattle.b3d_judge_tally.specs.Tally.{forest_tally, inner_tally};
ghost use Rattle.b3d_spec.specs.Nesting.{reached_at};
ghost use Rattle.b3d_spec_chunk_places.specs.Places.{Body, rest_in, Among};
ghost use Rattle.b3d_judge_tally.specs.Answers.{Judges};
ghost use Rattle.b3d_judge_node.specs.Answers.{above_of};

use b3d_chunk_next_allowed::Enclosed;
use b3d_judge_tally::Tally;
use b3d_rule_nesting_order::Reached;
use b3d_spec::{Mode, Tag};
use layout::{Refusal, refusals};
use wire::Cursor;

// How far the chunks inside a NODE have come after its KEYS and ANIM.
const MOVES_READ: Reached = Reached {
    turn: 3,
    spent: false,
};

// Judges the `body` of a NODE whose header is at `at`, with the nodes below it and `levels` levels left; `above` is what holds for its bones. Returns their
// tally, or the first refusal: 9 at `at` where no level is left.
#[cycle(judge_node_judge_nodes)]
pub fn judge_node(
    s: &[u8],
    at: usize,
    body: Cursor,
    levels: u32,
    brushes: usize,
    above: Option<usize>,
    mode: Mode,
) -> Result<Tally, Refusal>
    requires { Body at body (length s.now) }
    ensures { Judges inner_tally (read_node mode levels brushes (above_of above) at (left body s.now)) at body.end result }
{
    if levels == 0 {
        return Err(Refusal {
            number: refusals::TOO_DEEP,
            place: at,
        });
    }
    let (below, t, c) = b3d_judge_node::judge_own(s, at, body, brushes, above, mode)?;
    let f = judge_nodes(s, at, c, levels - 1, brushes, below, mode)?;
    Ok(b3d_judge_tally::plus(t, f))
}

// Judges the NODE chunks from the cursor `from` to the end of the NODE whose header is at `at`, with `levels` levels left; `above` is what holds for their
// bones. Returns their tally, that of nothing where there is no node, or the first refusal.
#[cycle(judge_node_judge_nodes)]
pub fn judge_nodes(
    s: &[u8],
    at: usize,
    from: Cursor,
    levels: u32,
    brushes: usize,
    above: Option<usize>,
    mode: Mode,
) -> Result<Tally, Refusal>
    requires { Among at from (length s.now) }
    ensures { Judges forest_tally (read_nodes (read_node mode levels brushes (above_of above)) (rest_in s.now NODE at (reached_at 3 false) from))
        from.at from.end result }
{
    let mut c = from;
    let mut q = MOVES_READ;
    let mut m = b3d_judge_tally::none();
    loop {
        let found = b3d_chunk_cursor::next_chunk(s, c);
        let Some(
            Enclosed {
                at: p,
                body,
                next,
                reached,
                ..
            },
        ) = b3d_chunk_next_allowed::next_inside(s, c, found, Tag::NODE, at, q)?
        else {
            return Ok(m);
        };
        let t = judge_node(s, p, body, levels, brushes, above, mode)?;
        m = b3d_judge_tally::plus(m, t);
        q = reached;
        c = next;
    }
}
