// The next row of a table of items: 5, 7, 8 and 10 (vertices, triangles, weights, keys) by `next_item`, 1 and 2 (textures, brushes, which begin with a text) by
// `next_text`.
#![tactic(auto)]

ghost use Rattle.std.specs.Prelude.{◌≡◌, ◌≤◌, length};
ghost use Rattle.b3d_spec.specs.Tables.{vertex_width};
ghost use Rattle.b3d_rows_open_items.specs.ItemsLeft.{ItemTable};
ghost use Rattle.b3d_rows_positions.specs.Positions.{ItemPosition, ItemsMore, ItemFinds};
ghost use Rattle.b3d_rows_items.specs.NextItem.{ItemNexts};
ghost use Rattle.b3d_rows_items.specs.NextText.{TextsOpen, TextPosition, TextNexts};

use b3d_chunk_walk::Sought;
use b3d_rows_open_items::OpenItems;
use b3d_rows_positions::Position;
use b3d_spec::{MOST_SLOTS, Tag};
use wire::Cursor;

// Returns the position at the first item of the next chunk after `x` that has items of table `k`, or `None`.
fn more_items(file: &[u8], k: u32, x: Position) -> Option<Position>
    requires { ItemTable k × ItemPosition k file.now x }
    ensures { ItemsMore k file.now x result }
{
    if k == 7 {
        return b3d_rows_positions::more_sets(file, x);
    }
    b3d_rows_positions::more_chunks(file, k, x)
}

// Returns the position before the first item of table `k` from `from` on, `None` where none is to come.
fn find_item(file: &[u8], k: u32, from: Position) -> Option<Position>
    requires { ItemTable k × ItemPosition k file.now from }
    ensures { ItemFinds k file.now from result }
{
    let mut x = from;
    loop {
        let items = x.items;
        let rest = items.rest;
        if 4 * items.words <= rest.end - rest.at {
            return Some(x);
        }
        x = more_items(file, k, x)?;
    }
}

// Writes the next row of table `k`, which is 5, 7, 8 or 10, into the start of `row` and returns the position behind it. The cells behind the row stay. Where no
// row is to come, `row` stays, and the answer is `None`.
pub fn next_item(file: &[u8], k: u32, from: Position, row: &mut [u32]) -> Option<Position>
    requires { ItemTable k × ItemPosition k file.now from × (vertex_width ≤ length row.old) }
    ensures { ItemNexts k file.now from row.old row.new result }
{
    let x = find_item(file, k, from)?;
    let items = x.items;
    b3d_rows_open_items::put_item(file, k, items, row);
    let rest = items.rest;
    let at = rest.at + 4 * items.words;
    let inner = x.inner;
    let counts = x.counts;
    Some(Position {
        at: x.at,
        inner,
        items: OpenItems {
            rest: Cursor { at, end: rest.end },
            words: items.words,
            flags: items.flags,
            sets: items.sets,
            size: items.size,
        },
        counts,
    })
}

// Returns no texts: items of a row with 7 words, at the place `end`, with `free` cells at its end that name no texture.
fn no_texts(end: usize, free: u32) -> OpenItems
    ensures { result ≡ record { rest = record { at = end; end = end }; words = 7; flags = 0; sets = 0; size = free } }
{
    OpenItems {
        rest: Cursor { at: end, end },
        words: 7,
        flags: 0,
        sets: 0,
        size: free,
    }
}

// Returns the textures of `file`; none where it has no TEXS.
pub fn open_textures(file: &[u8]) -> OpenItems
    ensures { TextsOpen 1 file.now result }
{
    let Some(Sought { body: rest, .. }) = b3d_read_materials::first_chunk(file, Tag::TEXS) else {
        return no_texts(file.len(), 0);
    };
    OpenItems {
        rest,
        words: 7,
        flags: 0,
        sets: 0,
        size: 0,
    }
}

// Returns the brushes of `file`; none where it has no BRUS, or an n_texs above 8, for which a row has no room.
pub fn open_brushes(file: &[u8]) -> OpenItems
    ensures { TextsOpen 2 file.now result }
{
    let Some(Sought { body, .. }) = b3d_read_materials::first_chunk(file, Tag::BRUS) else {
        return no_texts(file.len(), 8);
    };
    let head = b3d_chunk_walk::first_word(file, body);
    if MOST_SLOTS < head.word {
        return no_texts(file.len(), 8);
    }
    let ids = wire::size(head.word);
    let rest = head.rest;
    OpenItems {
        rest,
        words: 7 + ids,
        flags: 0,
        sets: 0,
        size: 8 - head.word,
    }
}

// Writes the next row of table `k`, which is 1 or 2, into the start of `row` and returns the position behind it. The cells behind the row stay. Where no row is
// to come, `row` stays, and the answer is `None`.
pub fn next_text(file: &[u8], k: u32, x: Position, row: &mut [u32]) -> Option<Position>
    requires { TextPosition k file.now x × (vertex_width ≤ length row.old) }
    ensures { TextNexts k file.now x row.old row.new result }
{
    let items = x.items;
    let c = items.rest;
    let named = b3d_chunk_cursor::named_row(file, c, items.words)?;
    let free = wire::size(items.size);
    b3d_read_materials::put_row(
        file,
        c.at,
        named.length,
        named.row,
        items.words,
        free,
        0,
        row,
    );
    let inner = x.inner;
    let counts = x.counts;
    Some(Position {
        at: x.at,
        inner,
        items: OpenItems {
            rest: named.next,
            words: items.words,
            flags: items.flags,
            sets: items.sets,
            size: items.size,
        },
        counts,
    })
}
