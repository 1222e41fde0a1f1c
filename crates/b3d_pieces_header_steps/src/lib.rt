// A step of the piece judge where a header was read: the nesting rule decides, and the chunk is entered or passed over. By value, as in b3d_pieces_item_steps.
#![tactic(auto)]

ghost use Rattle.std.specs.Prelude.{◌≡◌};
ghost use Rattle.wire.specs.Bytes.{IsWord};
ghost use Rattle.b3d_pieces_spec.specs.Machine.{fresh as fresh_of, header_done};
ghost use Rattle.b3d_pieces_item_steps.specs.Nows.{Ready, Gives};
ghost use Rattle.b3d_pieces_header_steps.specs.Heads.{OpensChunk, stand_here};

use b3d_chunk_cursor::tag_of;
use b3d_pieces_body_steps::{skip_from, texted};
use b3d_pieces_item_steps::Now;
use b3d_pieces_item_steps::between::less;
use b3d_pieces_item_steps::nesting::stands;
use b3d_pieces_spec::{NONE_KEPT, Open, Totals};
use b3d_pieces_totals::node_begins;
use b3d_spec::Tag;
use layout::refusals;

// Returns an open chunk of which nothing was read, with its header at `head`, `level` levels of nodes left and, as a NODE, the bone limit `told`.
pub fn fresh(tag: Tag, head: usize, end: usize, level: usize, told: usize) -> Open
    ensures { result ≡ fresh_of tag head end level told }
{
    Open {
        tag: tag,
        head: head,
        end: end,
        turn: 0,
        spent: false,
        level: level,
        kept: NONE_KEPT,
        count: 0,
        told: told,
    }
}

// Opens a chunk of tag `t` inside `f`, which goes to the row; its header is at `head`, its end at `e`, its body at `at`. Answers 9 at the header for a NODE
// where no level is left.
fn open_chunk(t: Tag, head: usize, e: usize, at: usize, g: Totals, f: Open) -> Now
    requires { Ready 1 at g f }
    ensures { OpensChunk t head e at g f result }
{
    let level = f.level;
    if texted(t) {
        if level == 0 {
            return Now::Fault(refusals::TOO_DEEP, head);
        }
        let told = g.below;
        let x = node_begins(g);
        let y = fresh(t, head, e, level - 1, told);
        return Now::Push(at, x, y, f);
    }
    let y = fresh(t, head, e, level, 0);
    Now::Push(at, g, y, f)
}

// Opens a chunk of tag `t` inside `f` if the nesting rule has a place for it, else answers 4 at its header.
fn stand_here(t: Tag, head: usize, e: usize, at: usize, g: Totals, f: Open) -> Now
    requires { Ready 1 at g f }
    ensures { Gives 1 at g f result (stand_here t head e at g f) }
{
    let tag = f.tag;
    let turn = f.turn;
    let spent = f.spent;
    let Some(reached) = stands(tag, turn, spent, t) else {
        return Now::Fault(refusals::NESTING, head);
    };
    let mut y = f;
    y.turn = reached.turn as usize;
    y.spent = reached.spent;
    open_chunk(t, head, e, at, g, y)
}

// Takes a header at `head` with `tag` and the length `n`: answers 3 there if the chunk runs past `f`, else opens it, or passes it over if its tag is unknown.
pub fn header_done(head: usize, tag: usize, n: usize, at: usize, g: Totals, f: Open) -> Now
    requires { Ready 1 at g f × IsWord tag × IsWord n }
    ensures { Gives 1 at g f result (header_done head tag n at g f) }
{
    let end = f.end;
    let left = less(end, at);
    if left < n {
        return Now::Fault(refusals::CUT_CHUNK, head);
    }
    let word = tag as u32;
    let Some(t) = tag_of(word) else {
        return skip_from(at + n, at, g, f);
    };
    stand_here(t, head, at + n, at, g, f)
}
