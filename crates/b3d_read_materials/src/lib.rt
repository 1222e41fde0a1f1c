// Tables 1 and 2, textures and brushes, filled from the first TEXS and the first BRUS of a file: a row for each item.
#![tactic(auto)]

ghost use Rattle.std.specs.Prelude.{◌≡◌, ◌+◌, ◌*◌, ◌<◌, ◌≤◌, ◌∷◌, ◌++◌, map, length, replicate};
ghost use Rattle.std.proofs.lemmas.List.Edits.{sets as stored};
ghost use Rattle.wire.specs.Cursors.{Inside, left};
ghost use Rattle.layout.specs.Parts.{words_of};
ghost use Rattle.layout.specs.Rules.{NONE};
ghost use Rattle.layout.specs.Rows.{joined};
ghost use Rattle.b3d_spec_plain_rows.specs.Plain.{named_items};
ghost use Rattle.b3d_spec_plain_rows.specs.Rows.{file_rows};
ghost use Rattle.b3d_read_materials.specs.Texts.{named_row, FirstIs};

use b3d_chunk_cursor::Named;
use b3d_chunk_walk::Sought;
use b3d_spec::{MOST_SLOTS, Tag};
use wire::Cursor;

// Stores a row in `out` from cell `base` on: the name's `place` and length `size`, `n` words of `file` from `row` on, then `rest` cells of NONE. Returns the
// cell behind it.
pub fn put_row(
    file: &[u8],
    place: usize,
    size: usize,
    row: Cursor,
    n: usize,
    rest: usize,
    base: usize,
    out: &mut [u32],
) -> usize
    requires inside { Inside row (length file.now) × (row.at + 4 * n ≤ row.end) × (base + 2 + n + rest ≤ length out.old) }
    requires place_bound { (place < 0x100000000) × (size < 0x100000000) }
    ensures { (result ≡ base + 2 + n + rest)
        × (out.new ≡ stored out.old base (place ∷ size ∷ (words_of n (left row file.now) ++ replicate rest NONE))) }
{
    let row_cells = [
        shared_table_words::cell(place),
        shared_table_words::cell(size),
    ];
    shared_table_words::put_cells(out, base, &row_cells);
    let from = base + 2;
    shared_table_words::copy_words(file, row, n, from, out);
    let after = from + n;
    shared_table_words::put_same(0xFFFFFFFF, rest, after, out);
    after + rest
}

// Stores in `out` a row for each item of a text and `n` words from the cursor `from` on, each with `rest` cells of NONE behind, up to the first item that is
// not all there.
fn fill_named(file: &[u8], from: Cursor, n: usize, rest: usize, out: &mut [u32])
    requires inside { Inside from (length file.now) × (length file.now < 0x100000000) × (n ≤ 64) }
    requires file_in_bounds { length (joined (map (named_row rest) (named_items n from.at (left from file.now)))) ≤ length out.old }
    ensures { out.new ≡ stored out.old 0 (joined (map (named_row rest) (named_items n from.at (left from file.now)))) }
{
    let mut c = from;
    let mut base: usize = 0;
    loop {
        let Some(Named { length, row, next }) = b3d_chunk_cursor::named_row(file, c, n) else {
            return;
        };
        base = put_row(file, c.at, length, row, n, rest, base, out);
        c = next;
    }
}

// Returns the first chunk of `tag` inside BB3D, from byte 12 of `file` on; no chunk is entered. Returns `None` where there is none or the file is shorter
// than 12 bytes.
pub fn first_chunk(file: &[u8], tag: Tag) -> Option<Sought>
    ensures { FirstIs file.now tag result }
{
    let end = file.len();
    if end < 12 {
        return None;
    }
    b3d_chunk_walk::seek(file, Cursor { at: 12, end }, tag)
}

// Stores the rows of table 1 of `file` in `out`. The cells behind them stay as they were.
pub fn fill_textures(file: &[u8], out: &mut [u32])
    requires { (length file.now < 0x100000000) × (length (joined (file_rows 1 file.now)) ≤ length out.old) }
    ensures { out.new ≡ stored out.old 0 (joined (file_rows 1 file.now)) }
{
    let Some(Sought { body, .. }) = first_chunk(file, Tag::TEXS) else {
        return;
    };
    fill_named(file, body, 7, 0, out);
}

// Stores the rows of table 2 of `file` in `out`. A row has room for eight ids: with an n_texs over 8 nothing is stored. The cells behind the rows stay as
// they were.
pub fn fill_brushes(file: &[u8], out: &mut [u32])
    requires { (length file.now < 0x100000000) × (length (joined (file_rows 2 file.now)) ≤ length out.old) }
    ensures { out.new ≡ stored out.old 0 (joined (file_rows 2 file.now)) }
{
    let Some(Sought { body, .. }) = first_chunk(file, Tag::BRUS) else {
        return;
    };
    let head = b3d_chunk_walk::first_word(file, body);
    if MOST_SLOTS < head.word {
        return;
    }
    let ids = wire::size(head.word);
    fill_named(file, head.rest, 7 + ids, 8 - ids, out);
}
