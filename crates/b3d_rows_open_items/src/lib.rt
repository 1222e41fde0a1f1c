// The items of the open chunk that are still to come, by value: tables 5, 7, 8 and 10 have a row for each. `open_items` begins a chunk, `put_item` makes the
// row of the first item.
#![tactic(auto)]

ghost use Rattle.std.specs.Prelude.{◌≡◌, ◌+◌, ◌*◌, ◌≤◌, length};
ghost use Rattle.std.proofs.lemmas.List.Edits.{sets as stored};
ghost use Rattle.wire.specs.Cursors.{Inside, left};
ghost use Rattle.layout.specs.Parts.{words_of};
ghost use Rattle.b3d_spec.specs.Tables.{vertex_width};
ghost use Rattle.b3d_chunk_walk.specs.Walks.{BodyAt};
ghost use Rattle.b3d_rows_open_items.specs.ItemsLeft.{item_row, Measured, AllItemsLeft};

use b3d_chunk_walk::Sought;
use b3d_spec::Tag;
use wire::Cursor;

// The items of one chunk that are still to come: `rest` is where they stand, an item has `words` words. For vertices `flags`, `sets` and `size` are the
// numbers of their VRTS, for keys `flags` is that of their KEYS; the others are 0. Textures and brushes have a text before the words, and `size` is the number
// of cells at the end of a row that name no texture.
#[derive(Clone, Copy)]
pub struct OpenItems {
    pub rest: Cursor,
    pub words: usize,
    pub flags: u32,
    pub sets: u32,
    pub size: u32,
}

// Returns the items of `words` words at `rest`, whose words are the cells of their rows.
fn plain(rest: Cursor, words: usize) -> OpenItems
    ensures { result ≡ record { rest = rest; words = words; flags = 0; sets = 0; size = 0 } }
{
    OpenItems {
        rest,
        words,
        flags: 0,
        sets: 0,
        size: 0,
    }
}

// Returns the vertices of a MESH with its header at `p` and this `body`; none where it has no VRTS.
fn open_vertices(file: &[u8], p: usize, body: Cursor) -> OpenItems
    requires { BodyAt file.now p body }
    ensures { AllItemsLeft 5 file.now p body result }
{
    let head = b3d_chunk_walk::first_word(file, body);
    let Some(Sought { body: b, .. }) = b3d_chunk_walk::seek(file, head.rest, Tag::VRTS) else {
        let at = body.end;
        return OpenItems {
            rest: Cursor { at, end: at },
            words: 3,
            flags: 0,
            sets: 0,
            size: 0,
        };
    };
    let h = b3d_chunk_walk::three_words(file, b);
    let flags = h.first % 4;
    let sets = b3d_rule_widths::at_most(h.second, 8);
    let size = b3d_rule_widths::at_most(h.third, 4);
    let words = b3d_rule_widths::vertex_words(flags, sets, size);
    let rest = h.rest;
    OpenItems {
        rest,
        words,
        flags,
        sets,
        size,
    }
}

// Returns the keys of a KEYS with its header at `p` and this `body`.
fn open_keys(file: &[u8], p: usize, body: Cursor) -> OpenItems
    requires { BodyAt file.now p body }
    ensures { AllItemsLeft 10 file.now p body result }
{
    let head = b3d_chunk_walk::first_word(file, body);
    let flags = head.word;
    let words = b3d_rule_widths::key_words(flags);
    let rest = head.rest;
    OpenItems {
        rest,
        words,
        flags,
        sets: 0,
        size: 0,
    }
}

// Returns the items of the chunk with its header at `p` and this `body` that table `k` has rows of: for 5 the vertices of a MESH, for 7 the triangles of a
// TRIS, for 10 the keys of a KEYS, for another `k` the weights of a BONE.
pub fn open_items(file: &[u8], k: u32, p: usize, body: Cursor) -> OpenItems
    requires { BodyAt file.now p body }
    ensures { AllItemsLeft k file.now p body result }
{
    if k == 5 {
        return open_vertices(file, p, body);
    }
    if k == 10 {
        return open_keys(file, p, body);
    }
    if k == 7 {
        let head = b3d_chunk_walk::first_word(file, body);
        return plain(head.rest, 3);
    }
    plain(body, 2)
}

// Writes the first item of `i`, which is there, into the start of `row` as a row of table `k`. The cells behind it stay as they were.
pub fn put_item(file: &[u8], k: u32, i: OpenItems, row: &mut [u32])
    requires { Inside i.rest (length file.now) × (i.rest.at + 4 * i.words ≤ i.rest.end) × Measured k i × (vertex_width ≤ length row.old) }
    ensures { row.new ≡ stored row.old 0 (item_row k i (words_of i.words (left i.rest file.now))) }
{
    let rest = i.rest;
    if k == 5 {
        b3d_read_vertex_rows::fill_vertices(file, rest, i.flags, i.sets, i.size, 1, 0, row);
        return;
    }
    if k == 10 {
        b3d_read_key_rows::fill_keys(file, rest, i.flags, i.words, 1, 0, row);
        return;
    }
    shared_table_words::copy_words(file, rest, i.words, 0, row);
}
