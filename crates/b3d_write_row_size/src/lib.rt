// How many bytes the rows of lent tables add to the shortest file that has them.
#![tactic(auto)]

ghost use Rattle.std.specs.Prelude.{◌≡◌, ◌+◌, ◌*◌, ◌<◌, ◌≤◌, length, take, drop, eqb};
ghost use Rattle.wire.specs.Test.{if};
ghost use Rattle.layout.specs.Lists.{All};
ghost use Rattle.b3d_spec.specs.Rebuild.{cut};
ghost use Rattle.b3d_spec.specs.Rules.{row_limit, vertex_words, key_words, highest_vertex_flags, most_sets, largest_set, highest_key_flags};
ghost use Rattle.b3d_spec.specs.Tables.{node_width, vertex_width, mesh_width, key_list_width};
ghost use Rattle.b3d_write_row_size.specs.RowSize.{table_most, RowsAdd, node_bytes, mesh_bytes, list_bytes, row_bytes, rows_bytes, Sizable, Wide, RowAdds};

use b3d_spec::columns;

// Returns `bytes` if `cell` is `value`, else 0.
fn bytes_if(cell: u32, value: u32, bytes: usize) -> usize
    ensures { result ≡ if (eqb cell value) bytes 0 }
{
    if cell == value {
        return bytes;
    }
    0
}

// Returns the bytes that a node row adds, by its cells: the length of its `name`, its `kind`, whether it has an ANIM (`anim`).
fn node_bytes(name: u32, kind: u32, anim: u32) -> usize
    ensures { RowAdds (name + 49 + if (eqb kind 2) 8 0 + if (eqb anim 1) 20 0) result }
{
    wire::size(name) + 49 + bytes_if(kind, 2, 8) + bytes_if(anim, 1, 20)
}

// Returns the bytes that a mesh row adds, by its cells: `flags`, `sets` and set `size` of its vertices, and how many there are (`many`).
fn mesh_bytes(flags: u32, sets: u32, size: u32, many: u32) -> usize
    requires { (flags ≤ highest_vertex_flags) × (sets ≤ most_sets) × (size ≤ largest_set) }
    ensures { RowAdds (32 + many * (4 * vertex_words flags sets size)) result }
{
    let words = b3d_rule_widths::vertex_words(flags, sets, size);
    32 + wire::size(many) * (4 * words)
}

// Returns the bytes that a key list's row adds, by its cells: the `flags` of its keys, and how many there are (`many`).
fn list_bytes(flags: u32, many: u32) -> usize
    requires { flags ≤ highest_key_flags }
    ensures { RowAdds (12 + many * (4 * key_words flags)) result }
{
    let words = b3d_rule_widths::key_words(flags);
    12 + wire::size(many) * (4 * words)
}

// Returns the length `name` of a name and `more` bytes.
fn name_bytes(name: u32, more: usize) -> usize
    requires { more ≤ 64 }
    ensures { RowAdds (name + more) result }
{
    wire::size(name) + more
}

// Returns the bytes that the node row from word `at` of `table` on adds.
fn node_row(table: &[u32], at: usize) -> usize
    requires { at + node_width ≤ length table.now }
    ensures { RowAdds (node_bytes (take node_width (drop at table.now))) result }
{
    node_bytes(
        table[at + columns::NAME_LENGTH],
        table[at + columns::NODE_KIND],
        table[at + columns::NODE_ANIM],
    )
}

// Returns the bytes that the mesh row from word `at` of `table` on adds.
fn mesh_row(table: &[u32], at: usize) -> usize
    requires { (at + mesh_width ≤ length table.now) × Sizable 4 (take mesh_width (drop at table.now)) }
    ensures { RowAdds (mesh_bytes (take mesh_width (drop at table.now))) result }
{
    mesh_bytes(
        table[at + columns::MESH_FLAGS],
        table[at + columns::MESH_SETS],
        table[at + columns::MESH_SET_SIZE],
        table[at + columns::MESH_VERTICES],
    )
}

// Returns the bytes that the key list's row from word `at` of `table` on adds.
fn list_row(table: &[u32], at: usize) -> usize
    requires { (at + key_list_width ≤ length table.now) × Sizable 9 (take key_list_width (drop at table.now)) }
    ensures { RowAdds (list_bytes (take key_list_width (drop at table.now))) result }
{
    list_bytes(
        table[at + columns::KEY_LIST_FLAGS],
        table[at + columns::KEY_LIST_KEYS],
    )
}

// Returns the bytes that the row of `width` words from word `at` on adds, of the table numbered `which`; for tables other than 3, 4 and 9 its name and `more`
// bytes.
fn row_bytes(table: &[u32], at: usize, which: u32, width: usize, more: usize) -> usize
    requires width_in_bounds { (at + width ≤ length table.now) × (2 ≤ width) × (more ≤ 64) × Wide which width }
    requires sizable { Sizable which (take width (drop at table.now)) }
    ensures { RowAdds (row_bytes which more (take width (drop at table.now))) result }
{
    if which == 3 {
        return node_row(table, at);
    }
    if which == 4 {
        return mesh_row(table, at);
    }
    if which == 9 {
        return list_row(table, at);
    }
    name_bytes(table[at + columns::NAME_LENGTH], more)
}

// Returns the bytes that the first `count` rows add, `width` words each, of the table numbered `which`; 0 without rows.
pub fn rows_bytes(table: &[u32], which: u32, width: usize, count: usize, more: usize) -> usize
    requires count_in_bounds { (width * count ≤ length table.now) × (count ≤ row_limit) × (2 ≤ width) × (width ≤ vertex_width) × (more ≤ 64) × Wide which width }
    requires all { All (Sizable which) (cut width count table.now) }
    ensures { RowsAdd table_most (rows_bytes which more (cut width count table.now)) result }
{
    let mut n: usize = 0;
    for i in 0..count {
        n += row_bytes(table, width * i, which, width, more);
    }
    n
}
