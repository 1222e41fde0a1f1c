// The nodes of the copy without names, written into a lent output: a node's own part, then those below it.
#![tactic(auto)]

ghost use Rattle.std.specs.Prelude.{◌+◌, ◌*◌, ◌≤◌, ◌++◌, length};
ghost use Rattle.wire.specs.Bytes.{AllBytes};
ghost use Rattle.wire.specs.Cursors.{Inside, left};
ghost use Rattle.layout.specs.Parts.{words_of};
ghost use Rattle.layout.specs.Rows.{most_bytes};
ghost use Rattle.shared_output.specs.Writing.{Room, Put};
ghost use Rattle.b3d_spec.specs.Tags.{code};
ghost use Rattle.b3d_spec.specs.declared.Tag.TheVariants.{NODE, BONE, KEYS, ANIM};
ghost use Rattle.b3d_spec_chunk_places.specs.Places.{Body};
ghost use Rattle.b3d_clear_spec.specs.Copies.{chunk_of, each, chunks_at, as_is, in_node, own_copy, node_copy};

use b3d_chunk_cursor::Named;
use b3d_chunk_walk::Sought;
use b3d_spec::{Tag, letters};
use wire::Cursor;

// Writes each BONE, KEYS and ANIM, in this order, of the chunks from the cursor `from` on, as they are. Returns their size.
fn clear_moves(file: &[u8], from: Cursor, out: &mut [u8]) -> usize
    requires inside { Inside from (length file.now) × (length file.now ≤ most_bytes) }
    requires room { Room (each BONE (as_is BONE) (chunks_at file.now from)
        ++ (each KEYS (as_is KEYS) (chunks_at file.now from) ++ each ANIM (as_is ANIM) (chunks_at file.now from))) out.old }
    ensures { Put (each BONE (as_is BONE) (chunks_at file.now from)
        ++ (each KEYS (as_is KEYS) (chunks_at file.now from) ++ each ANIM (as_is ANIM) (chunks_at file.now from))) out.old
        out.new result }
{
    let n = b3d_clear_copied_chunks::copy_each(file, from, Tag::BONE, out);
    let m = b3d_clear_copied_chunks::copy_two(file, from, Tag::KEYS, Tag::ANIM, &mut out[n..]);
    n + m
}

// Writes what stands inside a NODE from the cursor `from` on besides nodes: MESH or BONE, KEYS, ANIM. Returns the size.
fn clear_inside(file: &[u8], from: Cursor, out: &mut [u8]) -> usize
    requires inside { Inside from (length file.now) × (length file.now ≤ most_bytes) × AllBytes file.now }
    requires room { Room (in_node (chunks_at file.now from)) out.old }
    ensures { Put (in_node (chunks_at file.now from)) out.old out.new result }
{
    let n = b3d_clear_chunks::clear_each(file, from, Tag::MESH, out);
    let m = clear_moves(file, from, &mut out[n..]);
    n + m
}

// Writes the body of a NODE without the nodes below: an empty name, its ten words at `row`, and what stands inside from `next` on. Returns the size.
fn clear_own(file: &[u8], row: Cursor, next: Cursor, out: &mut [u8]) -> usize
    requires inside { Inside row (length file.now) × (row.at + 4 * 10 ≤ row.end) × AllBytes file.now }
    requires inside_2 { Inside next (length file.now) × (length file.now ≤ most_bytes) }
    requires room { Room (own_copy (words_of 10 (left row file.now)) (chunks_at file.now next)) out.old }
    ensures { Put (own_copy (words_of 10 (left row file.now)) (chunks_at file.now next)) out.old out.new result }
{
    let n = b3d_clear_materials::put_unnamed(file, row, 10, out);
    let m = clear_inside(file, next, &mut out[n..]);
    n + m
}

// Writes what the NODE at `at` with this `body` becomes, with `levels` levels left. Returns its size; 0 where no level is left, or text or words are cut.
#[cycle(clear_node_clear_nodes_node_chunk)]
fn clear_node(file: &[u8], at: usize, body: Cursor, levels: u32, out: &mut [u8]) -> usize
    requires body { Body at body (length file.now) × AllBytes file.now }
    requires room { Room (node_copy levels at (left body file.now)) out.old }
    ensures { Put (node_copy levels at (left body file.now)) out.old out.new result }
{
    if levels == 0 {
        return 0;
    }
    let Some(Named { row, next, .. }) = b3d_chunk_cursor::named_row(file, body, 10) else {
        return 0;
    };
    node_chunk(file, row, next, levels - 1, out)
}

// Writes a NODE of its ten words at `row` and the chunks from `next` on; the nodes below it have `levels` levels left. Returns its size.
#[cycle(clear_node_clear_nodes_node_chunk)]
fn node_chunk(file: &[u8], row: Cursor, next: Cursor, levels: u32, out: &mut [u8]) -> usize
    requires inside { Inside row (length file.now) × (row.at + 4 * 10 ≤ row.end) × AllBytes file.now }
    requires inside_2 { Inside next (length file.now) × (length file.now ≤ most_bytes) }
    requires room { Room (chunk_of (code NODE) (own_copy (words_of 10 (left row file.now)) (chunks_at file.now next)
        ++ each NODE (node_copy levels) (chunks_at file.now next))) out.old }
    ensures { Put (chunk_of (code NODE) (own_copy (words_of 10 (left row file.now)) (chunks_at file.now next)
        ++ each NODE (node_copy levels) (chunks_at file.now next))) out.old out.new result }
{
    let n = clear_own(file, row, next, &mut out[8..]);
    let behind = n + 8;
    let m = clear_nodes(file, next, levels, &mut out[behind..]);
    shared_output::put_header(out, letters::NODE, n + m);
    n + m + 8
}

// Writes what each NODE from the cursor `from` on becomes, with `levels` levels left. Returns their size; 0 where there is none.
#[cycle(clear_node_clear_nodes_node_chunk)]
pub fn clear_nodes(file: &[u8], from: Cursor, levels: u32, out: &mut [u8]) -> usize
    requires inside { Inside from (length file.now) × (length file.now ≤ most_bytes) × AllBytes file.now }
    requires room { Room (each NODE (node_copy levels) (chunks_at file.now from)) out.old }
    ensures { Put (each NODE (node_copy levels) (chunks_at file.now from)) out.old out.new result }
{
    let mut c = from;
    let mut n: usize = 0;
    loop {
        let Some(Sought { at, body, next }) = b3d_chunk_walk::seek(file, c, Tag::NODE) else {
            return n;
        };
        let m = clear_node(file, at, body, levels, &mut out[n..]);
        n += m;
        c = next;
    }
}
