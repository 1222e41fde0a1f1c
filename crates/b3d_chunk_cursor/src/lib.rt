// Steps that every walk over a B3D file takes: a tag and its letters, the next known chunk, a text with its row.
#![tactic(auto)]

ghost use Rattle.std.specs.Prelude.{◌≡◌, ◌≤◌, length};
ghost use Rattle.wire.specs.Cursors.{Inside};
ghost use Rattle.b3d_spec.specs.Tags.{code, is, tag_of};
ghost use Rattle.b3d_chunk_cursor.specs.Chunks.{tagged, NextIs, named_at, NamedIn};

use b3d_spec::{Tag, letters};
use wire::{Cursor, Header};

// Returns the known tag with the letters `n`, or `None` where there is none.
pub fn tag_of(n: u32) -> Option<Tag>
    ensures { result ≡ tagged (tag_of n) }
{
    match n {
        letters::BB3D => Some(Tag::BB3D),
        letters::TEXS => Some(Tag::TEXS),
        letters::BRUS => Some(Tag::BRUS),
        letters::NODE => Some(Tag::NODE),
        letters::MESH => Some(Tag::MESH),
        letters::VRTS => Some(Tag::VRTS),
        letters::TRIS => Some(Tag::TRIS),
        letters::BONE => Some(Tag::BONE),
        letters::KEYS => Some(Tag::KEYS),
        letters::ANIM => Some(Tag::ANIM),
        _ => None,
    }
}

// Returns the four letters of `tag` as a number.
pub fn letters(tag: Tag) -> u32
    ensures { result ≡ code tag }
{
    match tag {
        Tag::BB3D => letters::BB3D,
        Tag::TEXS => letters::TEXS,
        Tag::BRUS => letters::BRUS,
        Tag::NODE => letters::NODE,
        Tag::MESH => letters::MESH,
        Tag::VRTS => letters::VRTS,
        Tag::TRIS => letters::TRIS,
        Tag::BONE => letters::BONE,
        Tag::KEYS => letters::KEYS,
        Tag::ANIM => letters::ANIM,
    }
}

// Returns whether `a` and `b` are one tag.
pub fn same(a: Tag, b: Tag) -> bool
    ensures { result ≡ is a b }
{
    letters(a) == letters(b)
}

// The next known chunk: its tag, the place of its header, its body, the cursor after it; or `Cut`, the place of a cut header; or `Done`, no chunk is left.
#[derive(Clone, Copy)]
pub enum Next {
    Chunk {
        tag: Tag,
        at: usize,
        body: Cursor,
        next: Cursor,
    },
    Cut(usize),
    Done,
}

// Finds the next known chunk of `s` from the cursor `from` on; unknown chunks are passed over. Returns it, the place of a header that is cut, or `Done`.
pub fn next_chunk(s: &[u8], from: Cursor) -> Next
    requires { Inside from (length s.now) }
    ensures { NextIs s.now from result }
{
    let mut c = from;
    loop {
        match c.header(s) {
            Header::End => {
                return Next::Done;
            }
            Header::Cut => {
                return Next::Cut(c.at);
            }
            Header::Whole { tag, body, next } => match tag_of(tag) {
                Some(t) => {
                    return Next::Chunk {
                        tag: t,
                        at: c.at,
                        body,
                        next,
                    };
                }
                None => {
                    c = next;
                }
            },
        }
    }
}

// A text's length without its zero, a cursor at the words that follow it, and the cursor after those.
#[derive(Clone, Copy)]
pub struct Named {
    pub length: usize,
    pub row: Cursor,
    pub next: Cursor,
}

// Reads a text of `s` at `c` and the `words` words behind it. Returns where they stand, or `None` where they are not all there.
pub fn named_row(s: &[u8], c: Cursor, words: usize) -> Option<Named>
    requires { Inside c (length s.now) × (words ≤ 64) }
    ensures { (result ≡ named_at s.now c words) × NamedIn c words result }
{
    let Some((length, row)) = c.text(s) else {
        return None;
    };
    let at = row.at;
    let end = row.end;
    if end - at < 4 * words {
        return None;
    }
    Some(Named {
        length,
        row,
        next: Cursor {
            at: at + 4 * words,
            end,
        },
    })
}
