// The test of a cursor that a caller hands over: whether it is one over the rows of table `k` of a file, by its numbers alone. The file's bytes are not read.
#![tactic(auto)]

ghost use Rattle.std.specs.Prelude.{◌≡◌, ◌<◌, ◌≤◌, length};
ghost use Rattle.b3d_spec.specs.Tables.{width, brush_width};
ghost use Rattle.b3d_rows_items.specs.NextText.{TextPosition};
ghost use Rattle.b3d_rows_nodes.specs.NextNode.{NodePosition};
ghost use Rattle.b3d_rows_chunks.specs.NextChunk.{ChunkPosition, SetPosition};
ghost use Rattle.b3d_rows.specs.NextRow.{PartAt, RowCursorAt};
ghost use Rattle.b3d_rows_valid_items.specs.Decides.{Decides};
ghost use Rattle.b3d_rows_valid.specs.Cells.{SixteenCells};

use b3d_rows_nodes::{OpenNodes, RowCursor};
use b3d_rows_positions::Position;
use b3d_spec::{BRUSH_WIDTH, LEVELS, TEXTURE_WIDTH};

// Returns how many words a row of table `k`, which is 1 or 2, has.
fn text_row_words(k: u32) -> usize
    requires { (1 ≤ k) × (k ≤ 2) }
    ensures { (result ≡ width k) × (result ≤ brush_width) }
{
    if k == 1 {
        return TEXTURE_WIDTH;
    }
    BRUSH_WIDTH
}

// Returns whether `x` is a position in table `k`, which is 1 or 2.
fn is_text(file: &[u8], k: u32, x: Position) -> bool
    requires { (1 ≤ k) × (k ≤ 2) × (length file.now < 0x100000000) }
    ensures { Decides (TextPosition k file.now x) result }
{
    let items = x.items;
    let rest = items.rest;
    if rest.end < rest.at {
        return false;
    }
    if file.len() < rest.end {
        return false;
    }
    if 15 < items.words {
        return false;
    }
    if 40 < items.size {
        return false;
    }
    let free = wire::size(items.size);
    if 2 + items.words + free != text_row_words(k) {
        return false;
    }
    true
}

// Returns whether `x` is a position in table 3 under the open nodes of `path`.
fn is_node(file: &[u8], x: Position, path: OpenNodes) -> bool
    requires { SixteenCells path × (length file.now < 0x100000000) }
    ensures { Decides (NodePosition file.now x path) result }
{
    let counts = x.counts;
    if file.len() < x.at {
        return false;
    }
    if LEVELS < path.depth {
        return false;
    }
    if x.at < counts.nodes {
        return false;
    }
    if x.at < counts.meshes {
        return false;
    }
    if x.at < counts.weights {
        return false;
    }
    true
}

// Returns whether `x` is a position in table 4 or 9.
fn is_chunk(file: &[u8], x: Position) -> bool
    requires { length file.now < 0x100000000 }
    ensures { Decides (ChunkPosition file.now x) result }
{
    let counts = x.counts;
    if file.len() < x.at {
        return false;
    }
    if x.at < counts.nodes {
        return false;
    }
    if x.at < counts.vertices {
        return false;
    }
    if x.at < counts.sets {
        return false;
    }
    if x.at < counts.keys {
        return false;
    }
    true
}

// Returns whether `x` is a position in table 6.
fn is_set(file: &[u8], x: Position) -> bool
    requires { length file.now < 0x100000000 }
    ensures { Decides (SetPosition file.now x) result }
{
    let counts = x.counts;
    let inner = x.inner;
    if !b3d_rows_valid_items::is_mesh(file, x) {
        return false;
    }
    if x.at < inner.end {
        return false;
    }
    if inner.at < counts.triangles {
        return false;
    }
    true
}

// Returns whether `x` is a position in table `k`, which is 4 to 10.
fn is_part(file: &[u8], k: u32, x: Position) -> bool
    requires { (4 ≤ k) × (k ≤ 10) × (length file.now < 0x100000000) }
    ensures { Decides (PartAt k file.now x) result }
{
    if k == 4 {
        return is_chunk(file, x);
    }
    if k == 6 {
        return is_set(file, x);
    }
    if k == 9 {
        return is_chunk(file, x);
    }
    b3d_rows_valid_items::is_item(file, k, x)
}

// Returns whether `x` is a cursor over the rows of table `k`, which is 1 to 10.
pub fn is_cursor(file: &[u8], k: u32, x: RowCursor) -> bool
    requires { (1 ≤ k) × (k ≤ 10) × SixteenCells x.path × (length file.now < 0x100000000) }
    ensures { Decides (RowCursorAt k file.now x) result }
{
    let position = x.position;
    let path = x.path;
    if k <= 2 {
        return is_text(file, k, position);
    }
    if k == 3 {
        return is_node(file, position, path);
    }
    is_part(file, k, position)
}
