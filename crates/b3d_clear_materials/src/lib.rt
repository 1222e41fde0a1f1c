// TEXS and BRUS in the copy without names: items of a text and words, with the text left empty.
#![tactic(auto)]

ghost use Rattle.std.specs.Prelude.{◌+◌, ◌*◌, ◌≤◌, length};
ghost use Rattle.wire.specs.Bytes.{bytes, AllBytes};
ghost use Rattle.wire.specs.Cursors.{Inside, left};
ghost use Rattle.layout.specs.Parts.{words_of};
ghost use Rattle.shared_output.specs.Writing.{Room, Put};
ghost use Rattle.b3d_spec.specs.Tags.{code};
ghost use Rattle.b3d_spec.specs.declared.Tag.TheVariants.{TEXS, BRUS};
ghost use Rattle.b3d_spec_chunk_places.specs.Places.{Body};
ghost use Rattle.b3d_clear_spec.specs.Copies.{chunk_of, unnamed, unnamed_items, texs_copy, brus_copy};

use b3d_chunk_cursor::Named;
use b3d_spec::{MOST_SLOTS, letters};
use wire::Cursor;

// Writes an empty text and the `words` words of `file` at `row`. Returns the size.
pub fn put_unnamed(file: &[u8], row: Cursor, words: usize, out: &mut [u8]) -> usize
    requires inside { Inside row (length file.now) × (row.at + 4 * words ≤ row.end) × (words ≤ 64) × AllBytes file.now }
    requires room { Room (unnamed (words_of words (left row file.now))) out.old }
    ensures { Put (unnamed (words_of words (left row file.now))) out.old out.new result }
{
    out[0] = 0;
    shared_output::copy_bytes(file, row.at, 4 * words, &mut out[1..]);
    4 * words + 1
}

// Writes the items of a text and `words` words from the cursor `from` on with empty texts, up to the first that is not all there. Returns the size.
fn clear_items(file: &[u8], from: Cursor, words: usize, out: &mut [u8]) -> usize
    requires inside { Inside from (length file.now) × (words ≤ 64) × AllBytes file.now }
    requires room { Room (unnamed_items words from.at (left from file.now)) out.old }
    ensures { Put (unnamed_items words from.at (left from file.now)) out.old out.new result }
{
    let mut c = from;
    let mut n: usize = 0;
    loop {
        let Some(
            Named {
                row,
                next: after,
                ..
            },
        ) = b3d_chunk_cursor::named_row(file, c, words)
        else {
            return n;
        };
        let size = put_unnamed(file, row, words, &mut out[n..]);
        n += size;
        c = after;
    }
}

// Writes a TEXS of the `items` with empty texts. Returns its size.
fn texs_chunk(file: &[u8], items: Cursor, out: &mut [u8]) -> usize
    requires inside { Inside items (length file.now) × AllBytes file.now }
    requires room { Room (chunk_of (code TEXS) (unnamed_items 7 items.at (left items file.now))) out.old }
    ensures { Put (chunk_of (code TEXS) (unnamed_items 7 items.at (left items file.now))) out.old out.new result }
{
    let n = clear_items(file, items, 7, &mut out[8..]);
    shared_output::put_header(out, letters::TEXS, n);
    n + 8
}

// Writes what the TEXS at `at` with this `body` becomes. Returns its size; 0 where it has no item.
pub fn clear_textures(file: &[u8], at: usize, body: Cursor, out: &mut [u8]) -> usize
    requires body { Body at body (length file.now) × AllBytes file.now }
    requires room { Room (texs_copy at (left body file.now)) out.old }
    ensures { Put (texs_copy at (left body file.now)) out.old out.new result }
{
    if body.end <= body.at {
        return 0;
    }
    texs_chunk(file, body, out)
}

// Writes a BRUS of n_texs `slots` and the `items` of `words` words each, with empty texts. Returns its size.
fn brus_chunk(file: &[u8], items: Cursor, slots: u32, words: usize, out: &mut [u8]) -> usize
    requires inside { Inside items (length file.now) × (words ≤ 64) × AllBytes file.now }
    requires room { Room (chunk_of (code BRUS) (bytes slots (unnamed_items words items.at (left items file.now)))) out.old }
    ensures { Put (chunk_of (code BRUS) (bytes slots (unnamed_items words items.at (left items file.now)))) out.old
        out.new result }
{
    let n = clear_items(file, items, words, &mut out[12..]);
    shared_output::put_opening(out, letters::BRUS, n, slots);
    n + 12
}

// Writes what the BRUS at `at` with this `body` becomes. Returns its size; 0 where n_texs is cut or over 8, or it has no item.
pub fn clear_brushes(file: &[u8], at: usize, body: Cursor, out: &mut [u8]) -> usize
    requires body { Body at body (length file.now) × AllBytes file.now }
    requires room { Room (brus_copy at (left body file.now)) out.old }
    ensures { Put (brus_copy at (left body file.now)) out.old out.new result }
{
    let Some((slots, items)) = body.number(file) else {
        return 0;
    };
    if MOST_SLOTS < slots {
        return 0;
    }
    if items.end <= items.at {
        return 0;
    }
    let words = 7 + wire::size(slots);
    brus_chunk(file, items, slots, words, out)
}
