// A position in a table of a file, by value, with no table lent: where its rows go on, and how it moves to the next chunk. `find_chunk` finds the next chunk
// of a tag in the flat run of a file's chunks; `open_mesh`, `more_chunks` and `more_sets` move a position into it. Nothing is judged here.
#![tactic(auto)]

ghost use Rattle.std.specs.Prelude.{◌≡◌, ◌≤◌, length};
ghost use Rattle.b3d_rows_open_items.specs.ItemsLeft.{ItemTable};
ghost use Rattle.b3d_rows_positions.specs.FindChunk.{ChunkFinds};
ghost use Rattle.b3d_rows_positions.specs.Positions.{owner_of, MeshPosition, MeshOpens, ItemPosition, ItemsMore};

use b3d_rows_open_items::OpenItems;
use b3d_spec::{Counts, Tag};
use wire::Cursor;

// The next chunk of a tag: its header is at `at`, the run goes on at `next`, and `nodes` NODE chunks came before it.
#[derive(Clone, Copy)]
pub struct FoundChunk {
    pub at: usize,
    pub body: Cursor,
    pub next: usize,
    pub nodes: usize,
}

// Returns the first chunk of this `tag` from the place `from` of the flat run on, `None` where there is none. `before` is the number of NODE chunks before
// `from`.
pub fn find_chunk(file: &[u8], from: usize, tag: Tag, before: usize) -> Option<FoundChunk>
    requires { (from ≤ length file.now) × (before ≤ from) }
    ensures { ChunkFinds file.now from tag before result }
{
    let mut at = from;
    let mut nodes = before;
    loop {
        let chunk = b3d_chunk_walk::flat_next(file, at)?;
        if b3d_chunk_cursor::same(chunk.tag, tag) {
            return Some(FoundChunk {
                at: chunk.at,
                body: chunk.body,
                next: chunk.next,
                nodes,
            });
        }
        if b3d_chunk_cursor::same(chunk.tag, Tag::NODE) {
            nodes += 1;
        }
        at = chunk.next;
    }
}

// A position in a table: the flat run of chunks goes on at `at`; `inner` has the chunks of the open MESH that are still to come, `items` the items of the open
// chunk; `counts` has the rows that came before, of those tables that the rows to come tell of.
#[derive(Clone, Copy)]
pub struct Position {
    pub at: usize,
    pub inner: Cursor,
    pub items: OpenItems,
    pub counts: Counts,
}

// Returns the position at the start of the next MESH after `x`, `None` where no MESH follows.
pub fn open_mesh(file: &[u8], x: Position) -> Option<Position>
    requires { MeshPosition file.now x }
    ensures { MeshOpens file.now x result }
{
    let mut counts = x.counts;
    let chunk = find_chunk(file, x.at, Tag::MESH, counts.nodes)?;
    let head = b3d_chunk_walk::first_word(file, chunk.body);
    let inner = head.rest;
    let items = x.items;
    counts.nodes = chunk.nodes;
    counts.meshes = counts.meshes + 1;
    Some(Position {
        at: chunk.next,
        inner,
        items,
        counts,
    })
}

// Returns the tag of the chunks that have the items of table `k`: KEYS for 10, BONE for 8, MESH for another.
fn owner(k: u32) -> Tag
    ensures { result ≡ owner_of k }
{
    if k == 8 {
        return Tag::BONE;
    }
    if k == 10 {
        return Tag::KEYS;
    }
    Tag::MESH
}

// Returns the position at the first item of the next chunk after `x` that has items of table `k`, which is 5, 8 or 10; `None` where no such chunk follows.
pub fn more_chunks(file: &[u8], k: u32, x: Position) -> Option<Position>
    requires { ItemTable k × (k ≡ 7 → ⊥) × ItemPosition k file.now x }
    ensures { ItemsMore k file.now x result }
{
    let chunk = find_chunk(file, x.at, owner(k), 0)?;
    let items = b3d_rows_open_items::open_items(file, k, chunk.at, chunk.body);
    let inner = x.inner;
    let counts = x.counts;
    Some(Position {
        at: chunk.next,
        inner,
        items,
        counts,
    })
}

// Returns the position at the first triangle of the next TRIS of the open MESH; where it has none left, that at the start of the next MESH, or `None`.
pub fn more_sets(file: &[u8], x: Position) -> Option<Position>
    requires { ItemPosition 7 file.now x }
    ensures { ItemsMore 7 file.now x result }
{
    let Some(set) = b3d_chunk_walk::seek(file, x.inner, Tag::TRIS) else {
        return open_mesh(file, x);
    };
    let items = b3d_rows_open_items::open_items(file, 7, set.at, set.body);
    let counts = x.counts;
    Some(Position {
        at: x.at,
        inner: set.next,
        items,
        counts,
    })
}
