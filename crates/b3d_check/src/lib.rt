// The writer's check of lent tables, row by row: whether some accepted file has them.
#![tactic(auto)]

ghost use Rattle.b3d_check.specs.Lent.{lent_of, Says};

use b3d_spec::{HIGHEST_VERSION, Mode};

// Returns whether some file that `mode` accepts has these tables: `version`, n_texs (`slots`), `counts` by table, the tables `t1` to `t10` and the bytes
// `names` that hold the names. Then the scene put together from them is that file's.
pub fn sound(
    mode: Mode,
    version: u32,
    slots: u32,
    counts: &[u32; 10],
    t1: &[u32],
    t2: &[u32],
    t3: &[u32],
    t4: &[u32],
    t5: &[u32],
    t6: &[u32],
    t7: &[u32],
    t8: &[u32],
    t9: &[u32],
    t10: &[u32],
    names: &[u8],
) -> bool
    ensures { Says mode (lent_of version slots counts.now
        t1.now t2.now t3.now t4.now t5.now
        t6.now t7.now t8.now t9.now t10.now) names.now result }
{
    let textures = counts[0];
    let brushes = counts[1];
    let n1 = wire::size(textures);
    let n2 = wire::size(brushes);
    let all = b3d_check_table_lengths::sizes(counts);
    if !b3d_check_table_lengths::tables_have_rows(
        n1, n2, all, t1, t2, t3, t4, t5, t6, t7, t8, t9, t10,
    ) {
        return false;
    }
    if !(version <= HIGHEST_VERSION) {
        return false;
    }
    if !b3d_check_materials::slots_valid(slots, brushes) {
        return false;
    }
    if !b3d_check_materials::textures_valid(names, t1, n1) {
        return false;
    }
    if !b3d_check_materials::brushes_valid(names, slots, textures, t2, n2) {
        return false;
    }
    if !b3d_check_root::tree_valid(names, brushes, all, t3, t4, t5, t6, t7, t8, t9, t10) {
        return false;
    }
    b3d_check_colours::colours_valid(mode, n2, t2, all.vertices, t5)
}
