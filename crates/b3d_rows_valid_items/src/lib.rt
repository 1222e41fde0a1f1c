// The test of a position in a table of items that a caller hands over: whether it is one of table `k`, by its numbers alone. The file's bytes are not read.
#![tactic(auto)]

ghost use Rattle.b3d_rows_open_items.specs.ItemsLeft.{ItemTable, OfVertex, Measured};
ghost use Rattle.b3d_rows_positions.specs.Positions.{MeshPosition, ItemPosition};
ghost use Rattle.b3d_rows_valid_items.specs.Decides.{Decides};

use b3d_rows_open_items::OpenItems;
use b3d_rows_positions::Position;
use b3d_spec::VERTEX_WIDTH;

// Returns whether `x` is a position of `file` from which the next MESH can be sought.
pub fn is_mesh(file: &[u8], x: Position) -> bool
    ensures { Decides (MeshPosition file.now x) result }
{
    let counts = x.counts;
    let inner = x.inner;
    if file.len() < x.at {
        return false;
    }
    if inner.end < inner.at {
        return false;
    }
    if file.len() < inner.end {
        return false;
    }
    if x.at < counts.nodes {
        return false;
    }
    if x.at < counts.meshes {
        return false;
    }
    true
}

// Returns whether the numbers of `i` say how many words a vertex has.
fn is_vertex(i: OpenItems) -> bool
    ensures { Decides (OfVertex i) result }
{
    if 3 < i.flags {
        return false;
    }
    if 8 < i.sets {
        return false;
    }
    if 4 < i.size {
        return false;
    }
    if i.words != b3d_rule_widths::vertex_words(i.flags, i.sets, i.size) {
        return false;
    }
    true
}

// Returns whether items of table `k` have as many words as the numbers of `i` say.
fn is_measured(k: u32, i: OpenItems) -> bool
    requires { ItemTable k }
    ensures { Decides (Measured k i) result }
{
    if i.words < 1 {
        return false;
    }
    if VERTEX_WIDTH < i.words {
        return false;
    }
    if k == 5 {
        return is_vertex(i);
    }
    if k == 10 {
        if i.words != b3d_rule_widths::key_words(i.flags) {
            return false;
        }
        return true;
    }
    if k == 7 {
        if i.words != 3 {
            return false;
        }
        return true;
    }
    if i.words != 2 {
        return false;
    }
    true
}

// Returns whether `x` is a position in table `k`, which is 5, 7, 8 or 10.
pub fn is_item(file: &[u8], k: u32, x: Position) -> bool
    requires { ItemTable k }
    ensures { Decides (ItemPosition k file.now x) result }
{
    let items = x.items;
    let rest = items.rest;
    if !is_mesh(file, x) {
        return false;
    }
    if rest.end < rest.at {
        return false;
    }
    if file.len() < rest.end {
        return false;
    }
    if !is_measured(k, items) {
        return false;
    }
    true
}
