// The next row of tables that have a row for a chunk: 4, the meshes, 9, the key lists, and 6, the triangle sets of each MESH.
#![tactic(auto)]

ghost use Rattle.std.specs.Prelude.{◌≤◌, length};
ghost use Rattle.b3d_spec.specs.Tables.{vertex_width};
ghost use Rattle.b3d_rows_chunks.specs.NextChunk.{ChunkPosition, ChunkNexts, SetPosition, SetFinds, SetNexts};

use b3d_rows_positions::Position;
use b3d_spec::Tag;
use wire::Cursor;

// Writes the next row of table 4 into the start of `row` and returns the position behind it. The cells behind the row stay. Where no row is to come, `row`
// stays, and the answer is `None`.
pub fn next_mesh(file: &[u8], x: Position, row: &mut [u32]) -> Option<Position>
    requires { ChunkPosition file.now x × (vertex_width ≤ length row.old) }
    ensures { ChunkNexts 4 file.now x row.old row.new result }
{
    let mut counts = x.counts;
    let chunk = b3d_rows_positions::find_chunk(file, x.at, Tag::MESH, counts.nodes)?;
    let node = b3d_chunk_walk::current(chunk.nodes);
    let more = b3d_read_mesh_rows::store_mesh(
        file,
        chunk.at,
        chunk.body,
        node,
        counts.vertices,
        counts.sets,
        0,
        row,
    );
    let vertices = counts.vertices + more.vertices;
    let sets = counts.sets + more.sets;
    counts.nodes = chunk.nodes;
    counts.vertices = vertices;
    counts.sets = sets;
    let inner = x.inner;
    let items = x.items;
    Some(Position {
        at: chunk.next,
        inner,
        items,
        counts,
    })
}

// Writes the next row of table 9 into the start of `row` and returns the position behind it. The cells behind the row stay. Where no row is to come, `row`
// stays, and the answer is `None`.
pub fn next_list(file: &[u8], x: Position, row: &mut [u32]) -> Option<Position>
    requires { ChunkPosition file.now x × (vertex_width ≤ length row.old) }
    ensures { ChunkNexts 9 file.now x row.old row.new result }
{
    let mut counts = x.counts;
    let chunk = b3d_rows_positions::find_chunk(file, x.at, Tag::KEYS, counts.nodes)?;
    let node = b3d_chunk_walk::current(chunk.nodes);
    let n = b3d_read_item_rows::store_group(file, chunk.body, true, node, counts.keys, 0, row);
    counts.nodes = chunk.nodes;
    counts.keys = counts.keys + n;
    let inner = x.inner;
    let items = x.items;
    Some(Position {
        at: chunk.next,
        inner,
        items,
        counts,
    })
}

// The next TRIS: its `body`, and the position behind it.
#[derive(Clone, Copy)]
pub struct FoundSet {
    pub body: Cursor,
    pub position: Position,
}

// Returns the first TRIS from `from` on, `None` where none is to come.
fn find_set(file: &[u8], from: Position) -> Option<FoundSet>
    requires { SetPosition file.now from }
    ensures { SetFinds file.now from result }
{
    let mut x = from;
    loop {
        let c = x.inner;
        if let Some(set) = b3d_chunk_walk::seek(file, c, Tag::TRIS) {
            let items = x.items;
            let counts = x.counts;
            return Some(FoundSet {
                body: set.body,
                position: Position {
                    at: x.at,
                    inner: set.next,
                    items,
                    counts,
                },
            });
        }
        x = b3d_rows_positions::open_mesh(file, x)?;
    }
}

// Writes the next row of table 6 into the start of `row` and returns the position behind it. The cells behind the row stay. Where no row is to come, `row`
// stays, and the answer is `None`.
pub fn next_set(file: &[u8], x: Position, row: &mut [u32]) -> Option<Position>
    requires { SetPosition file.now x × (vertex_width ≤ length row.old) }
    ensures { SetNexts file.now x row.old row.new result }
{
    let set = find_set(file, x)?;
    let position = set.position;
    let mut counts = position.counts;
    let mesh = b3d_chunk_walk::current(counts.meshes);
    let n = b3d_read_item_rows::store_group(file, set.body, false, mesh, counts.triangles, 0, row);
    counts.triangles = counts.triangles + n;
    let inner = position.inner;
    let items = position.items;
    Some(Position {
        at: position.at,
        inner,
        items,
        counts,
    })
}
