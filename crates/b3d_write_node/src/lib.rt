// What the body of a NODE holds before the nodes below it, written from rows of lent tables: the name, ten words, the kind, KEYS, ANIM. The tables t3 to t10
// have their numbers as names.
#![tactic(auto)]

ghost use Rattle.std.specs.Prelude.{◌+◌, ◌*◌, ◌≤◌, length, get_or};
ghost use Rattle.shared_output.specs.Writing.{Room, Put};
ghost use Rattle.b3d_spec.specs.Tables.{node_width};
ghost use Rattle.b3d_spec.specs.Columns as columns;
ghost use Rattle.b3d_write_node.specs.Own.{kind_bytes, own_bytes, KindThere, OwnThere};

use b3d_spec::{Counts, MESH_WIDTH, NODE_WIDTH, columns};
use b3d_write_animation::write_animation;
use b3d_write_items::{number, put_weights};
use b3d_write_materials::named::put_named;
use b3d_write_mesh::write_mesh;

// Writes the MESH or the BONE of the node whose row begins at word `row` of `t3` and which comes after the counts `n`. Returns its size; 0 for a pivot.
fn write_kind(
    t3: &[u32],
    row: usize,
    t4: &[u32],
    t5: &[u32],
    t6: &[u32],
    t7: &[u32],
    t8: &[u32],
    n: Counts,
    out: &mut [u8],
) -> usize
    requires node_width_in_bounds { row + node_width ≤ length t3.now }
    requires kind_there { KindThere t4.now t5.now t6.now t7.now t8.now n (get_or t3.now (row + columns.node_kind) 0)
        (get_or t3.now (row + columns.node_count) 0) }
    requires room { Room (kind_bytes t4.now t5.now t6.now t7.now t8.now n (get_or t3.now (row + columns.node_kind) 0)
        (get_or t3.now (row + columns.node_count) 0)) out.old }
    ensures { Put (kind_bytes t4.now t5.now t6.now t7.now t8.now
        n (get_or t3.now (row + columns.node_kind) 0) (get_or t3.now (row + columns.node_count) 0)) out.old out.new result }
{
    if t3[row + columns::NODE_KIND] == 1 {
        let i = MESH_WIDTH * n.meshes;
        let v = n.vertices;
        let s = n.sets;
        let t = n.triangles;
        return write_mesh(t4, i, t5, v, t6, s, t7, t, out);
    }
    if t3[row + columns::NODE_KIND] == 2 {
        let many = number(t3, row + columns::NODE_COUNT);
        return put_weights(t8, n.weights, many, out);
    }
    0
}

// Writes all that the body of the node after the counts `n` holds before the nodes below it, to the start of `out`. Returns the size.
pub fn write_own_chunks(
    names: &[u8],
    t3: &[u32],
    t4: &[u32],
    t5: &[u32],
    t6: &[u32],
    t7: &[u32],
    t8: &[u32],
    t9: &[u32],
    t10: &[u32],
    n: Counts,
    out: &mut [u8],
) -> usize
    requires own_there { OwnThere names.now t3.now t4.now t5.now t6.now t7.now t8.now t9.now t10.now n }
    requires room { Room (own_bytes names.now t3.now t4.now t5.now t6.now t7.now t8.now t9.now t10.now n) out.old }
    ensures { Put (own_bytes names.now t3.now t4.now t5.now t6.now
        t7.now t8.now t9.now t10.now n) out.old out.new result }
{
    let row = NODE_WIDTH * n.nodes;
    let a = put_named(names, t3, row, row + columns::NODE_POSITION, 10, out);
    let rest = &mut out[a..];
    let b = write_kind(t3, row, t4, t5, t6, t7, t8, n, rest);
    let c = write_animation(t3, row, t9, t10, n, &mut out[a + b..]);
    a + b + c
}
