// The walk over a file's chunks in one flat run, into each NODE and past every other chunk; and the search for the first chunk of a tag. Nothing is judged
// here.
#![tactic(auto)]

ghost use Rattle.std.specs.Prelude.{◌≡◌, ◌-◌, ◌≤◌, length};
ghost use Rattle.wire.specs.Cursors.{Inside};
ghost use Rattle.b3d_chunk_walk.specs.Walks.{NodeAt, Steps};
ghost use Rattle.b3d_chunk_walk.specs.Seeks.{Seeks, FirstWord, ThreeWords};

use b3d_chunk_cursor::{Named, Next};
use b3d_spec::Tag;
use wire::Cursor;

// A chunk of the flat run: its tag, the place of its header, its body and the place where the run goes on.
#[derive(Clone, Copy)]
pub struct FlatChunk {
    pub tag: Tag,
    pub at: usize,
    pub body: Cursor,
    pub next: usize,
}

// Returns the NODE at `p` with this `body`; the run goes on behind its text and ten numbers. Returns `None` if these are not all there.
fn enter(file: &[u8], at: usize, p: usize, body: Cursor) -> Option<FlatChunk>
    requires { NodeAt file.now at p body }
    ensures { Steps file.now at result }
{
    let Some(Named { next, .. }) = b3d_chunk_cursor::named_row(file, body, 10) else {
        return None;
    };
    Some(FlatChunk {
        tag: Tag::NODE,
        at: p,
        body,
        next: next.at,
    })
}

// Returns the first known chunk of the flat run of `file` from `at` on. Returns `None` at the file's end, at a cut header, at a length past the file and at a
// NODE whose text or numbers are cut.
pub fn flat_next(file: &[u8], at: usize) -> Option<FlatChunk>
    requires { at ≤ length file.now }
    ensures { Steps file.now at result }
{
    let end = file.len();
    match b3d_chunk_cursor::next_chunk(file, Cursor { at, end }) {
        Next::Done => None,
        Next::Cut(_) => None,
        Next::Chunk {
            tag,
            at: p,
            body,
            next,
        } => {
            if b3d_chunk_cursor::same(tag, Tag::NODE) {
                return enter(file, at, p, body);
            }
            Some(FlatChunk {
                tag,
                at: p,
                body,
                next: next.at,
            })
        }
    }
}

// The first chunk of a tag, as `seek` finds it: the place of its header, its body and the cursor after it.
#[derive(Clone, Copy)]
pub struct Sought {
    pub at: usize,
    pub body: Cursor,
    pub next: Cursor,
}

// Returns the first chunk of `tag` among those that stand one after the other from the cursor `from` on; no chunk is entered. Returns `None` where there
// is none before the end, or before a header that is cut or whose length passes the end.
pub fn seek(file: &[u8], from: Cursor, tag: Tag) -> Option<Sought>
    requires { Inside from (length file.now) }
    ensures { Seeks file.now from tag result }
{
    let mut c = from;
    loop {
        match b3d_chunk_cursor::next_chunk(file, c) {
            Next::Done => {
                return None;
            }
            Next::Cut(_) => {
                return None;
            }
            Next::Chunk {
                tag: t,
                at,
                body,
                next,
            } => {
                if b3d_chunk_cursor::same(t, tag) {
                    return Some(Sought { at, body, next });
                }
                c = next;
            }
        }
    }
}

// The first number of a body, 0 where it is not there, and a cursor behind it.
#[derive(Clone, Copy)]
pub struct Headed {
    pub word: u32,
    pub rest: Cursor,
}

// Returns the first number of `body` and a cursor behind it. If fewer than four bytes are left, the number is 0 and the cursor is at the end.
pub fn first_word(file: &[u8], body: Cursor) -> Headed
    requires { Inside body (length file.now) }
    ensures { FirstWord file.now body result }
{
    let at = body.at;
    let end = body.end;
    if end - at < 4 {
        return Headed {
            word: 0,
            rest: Cursor { at: end, end },
        };
    }
    Headed {
        word: wire::number_at(file, at),
        rest: Cursor { at: at + 4, end },
    }
}

// The first three numbers of a body, 0 where one is not there, and a cursor behind them.
#[derive(Clone, Copy)]
pub struct Three {
    pub first: u32,
    pub second: u32,
    pub third: u32,
    pub rest: Cursor,
}

// Returns the first three numbers of `body` and a cursor behind them. A number that is not all there is 0, and the cursor is then at the end.
pub fn three_words(file: &[u8], body: Cursor) -> Three
    requires { Inside body (length file.now) }
    ensures { ThreeWords file.now body result }
{
    let a = first_word(file, body);
    let b = first_word(file, a.rest);
    let c = first_word(file, b.rest);
    let rest = c.rest;
    Three {
        first: a.word,
        second: b.word,
        third: c.word,
        rest,
    }
}

// Returns the number of the node that is being read after `nodes` nodes have begun: `nodes` - 1, and 0 before the first.
pub fn current(nodes: usize) -> usize
    ensures { result ≡ nodes - 1 }
{
    if nodes == 0 { 0 } else { nodes - 1 }
}
