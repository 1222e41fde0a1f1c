// The file of the counted rows of lent tables: each table is cut to its counted rows, and the whole file is written into an output.
#![tactic(auto)]

ghost use Rattle.std.specs.Prelude.{length};
ghost use Rattle.b3d_spec.specs.Encode.{encode};
ghost use Rattle.b3d_check_table_lengths.specs.LentRooms.{Rooms};
ghost use Rattle.b3d_write_file.specs.Whole.{Some, Each};
ghost use Rattle.b3d_write_counted.specs.Counted.{OfCounted};

use b3d_spec::{
    BRUSH_WIDTH, Counts, KEY_LIST_WIDTH, KEY_WIDTH, MESH_WIDTH, NODE_WIDTH, TEXTURE_WIDTH,
    TRIANGLE_SET_WIDTH, TRIANGLE_WIDTH, VERTEX_WIDTH, WEIGHT_WIDTH,
};

// Writes the file of the first `textures` rows of `t1`, the first `brushes` rows of `t2` and the rows that `all` counts, with names in `names`, to the start
// of `out`. Returns its size. The bytes behind it stay as they were.
pub fn write_counted(
    names: &[u8],
    version: u32,
    slots: u32,
    textures: usize,
    brushes: usize,
    all: Counts,
    t1: &[u32],
    t2: &[u32],
    t3: &[u32],
    t4: &[u32],
    t5: &[u32],
    t6: &[u32],
    t7: &[u32],
    t8: &[u32],
    t9: &[u32],
    t10: &[u32],
    out: &mut [u8],
) -> usize
    requires rooms { Rooms textures brushes all
        (length t1.now) (length t2.now) (length t3.now) (length t4.now) (length t5.now)
        (length t6.now) (length t7.now) (length t8.now) (length t9.now) (length t10.now) }
    requires some { Some (OfCounted names.now version slots textures brushes all
        t1.now t2.now t3.now t4.now t5.now t6.now t7.now t8.now t9.now t10.now) encode out.old }
    ensures { Each (OfCounted names.now version slots textures brushes all
        t1.now t2.now t3.now t4.now t5.now
        t6.now t7.now t8.now t9.now t10.now) encode out.old out.new result }
{
    let t1 = &t1[..TEXTURE_WIDTH * textures];
    let t2 = &t2[..BRUSH_WIDTH * brushes];
    let t3 = &t3[..NODE_WIDTH * all.nodes];
    let t4 = &t4[..MESH_WIDTH * all.meshes];
    let t5 = &t5[..VERTEX_WIDTH * all.vertices];
    let t6 = &t6[..TRIANGLE_SET_WIDTH * all.sets];
    let t7 = &t7[..TRIANGLE_WIDTH * all.triangles];
    let t8 = &t8[..WEIGHT_WIDTH * all.weights];
    let t9 = &t9[..KEY_LIST_WIDTH * all.lists];
    let t10 = &t10[..KEY_WIDTH * all.keys];
    b3d_write_file::write_file(
        names, version, slots, t1, t2, t3, t4, t5, t6, t7, t8, t9, t10, all, out,
    )
}
