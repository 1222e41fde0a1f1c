// The last eight cells of a node's row, from the chunks behind its numbers: its kind, first, count, its ANIM; and the branch word, which is given.
#![tactic(auto)]

ghost use Rattle.std.specs.Prelude.{◌≡◌, ◌<◌, ◌≤◌, length};
ghost use Rattle.b3d_spec.specs.Tables.{kind_cells, anim_cells};
ghost use Rattle.b3d_spec_plain_rows.specs.Flat.{flat_at};
ghost use Rattle.b3d_spec_plain_rows.specs.Rows.{kind_of, anim_of};
ghost use Rattle.b3d_read_node_cells.specs.Parts.{told, part_cells, OwnSteps};

use b3d_chunk_cursor::Next;
use b3d_chunk_walk::FlatChunk;
use b3d_spec::Tag;
use wire::Cursor;

// Returns the next of a node's own chunks from `at` on; `None` at the next NODE, whose text is not looked at, at the file's end, at a cut header and at a
// length past the file.
fn own_next(file: &[u8], at: usize) -> Option<FlatChunk>
    requires { at ≤ length file.now }
    ensures { OwnSteps file.now at result }
{
    let end = file.len();
    match b3d_chunk_cursor::next_chunk(file, Cursor { at, end }) {
        Next::Done => None,
        Next::Cut(_) => None,
        Next::Chunk {
            tag,
            at: p,
            body,
            next,
        } => {
            if b3d_chunk_cursor::same(tag, Tag::NODE) {
                return None;
            }
            Some(FlatChunk {
                tag,
                at: p,
                body,
                next: next.at,
            })
        }
    }
}

// Returns kind, first and count of the node whose own chunks begin at `from`, after `meshes` meshes and `weights` weights. Its own chunks end at the next
// NODE. A node with no MESH or BONE is a pivot: 0, 0, 0.
fn kind_cells(file: &[u8], from: usize, meshes: usize, weights: usize) -> [u32; 3]
    requires { (from ≤ length file.now) × (length file.now < 0x100000000) × (meshes < 0x100000000) × (weights < 0x100000000) }
    ensures { result ≡ kind_cells (kind_of (flat_at file.now from)) (told meshes weights) }
{
    let mut at = from;
    loop {
        let Some(chunk) = own_next(file, at) else {
            return [0, 0, 0];
        };
        if b3d_chunk_cursor::same(chunk.tag, Tag::MESH) {
            return [1, shared_table_words::cell(meshes), 1];
        }
        if b3d_chunk_cursor::same(chunk.tag, Tag::BONE) {
            let count = (chunk.body.end - chunk.body.at) / 8;
            return [
                2,
                shared_table_words::cell(weights),
                shared_table_words::cell(count),
            ];
        }
        at = chunk.next;
    }
}

// Returns 1 and the three values of the ANIM of the node whose own chunks begin at `from`; four zeros where it has none.
fn anim_cells(file: &[u8], from: usize) -> [u32; 4]
    requires { from ≤ length file.now }
    ensures { result ≡ anim_cells (anim_of (flat_at file.now from)) }
{
    let mut at = from;
    loop {
        let Some(chunk) = own_next(file, at) else {
            return [0, 0, 0, 0];
        };
        if b3d_chunk_cursor::same(chunk.tag, Tag::ANIM) {
            let v = b3d_chunk_walk::three_words(file, chunk.body);
            return [1, v.first, v.second, v.third];
        }
        at = chunk.next;
    }
}

// Returns the last eight cells of the row of a node whose own chunks begin at `from`, after `meshes` meshes and `weights` weights, with the branch word `below`.
pub fn part_cells(file: &[u8], from: usize, below: u32, meshes: usize, weights: usize) -> [u32; 8]
    requires { (from ≤ length file.now) × (length file.now < 0x100000000) × (meshes < 0x100000000) × (weights < 0x100000000) }
    ensures { result ≡ part_cells (flat_at file.now from) below (told meshes weights) }
{
    let k = kind_cells(file, from, meshes, weights);
    let a = anim_cells(file, from);
    [k[0], k[1], k[2], a[0], a[1], a[2], a[3], below]
}
