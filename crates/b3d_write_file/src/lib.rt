// The whole file of lent tables, written into an output: BB3D's header and version, TEXS, BRUS and NODE.
#![tactic(auto)]

ghost use Rattle.b3d_spec.specs.Encode.{encode};
ghost use Rattle.b3d_spec.specs.Tables.{texture_width, brush_width};
ghost use Rattle.b3d_spec.specs.Rules.{most_slots};
ghost use Rattle.b3d_write_nodes.specs.Walk.{nodes_bytes, TablesSized};
ghost use Rattle.b3d_write_node.specs.Own.{table_rows};
ghost use Rattle.b3d_write_file.specs.Whole.{OfNodes, OfScene, lists_bytes, Some, Each};
ghost use Rattle.shared_output.specs.Writing.{Room, Put};
ghost use Rattle.b3d_write_row_runs.specs.Lent.{rows_in};
ghost use Rattle.b3d_write_materials.specs.Named.{NamesThere};
ghost use Rattle.std.specs.Prelude.{◌≤◌};

use b3d_spec::{ALL_LEVELS, BRUSH_WIDTH, Counts, START, letters};

// Writes TEXS, if there is a texture, and BRUS, if there is a brush, to the start of `out`. Returns their size.
fn put_lists(names: &[u8], slots: u32, t1: &[u32], t2: &[u32], out: &mut [u8]) -> usize
    requires slots_le_most_slots { (slots ≤ most_slots) × NamesThere names.now (rows_in texture_width t1.now) × NamesThere names.now (rows_in brush_width t2.now) }
    requires room { Room (lists_bytes names.now slots t1.now t2.now) out.old }
    ensures { Put (lists_bytes names.now slots t1.now t2.now) out.old out.new result }
{
    let a = b3d_write_materials::put_textures(names, t1, out);
    let b = b3d_write_materials::put_brushes(names, slots, t2, &mut out[a..]);
    a + b
}

// Writes the root's NODE with all nodes, if there is one, to the start of `out`. Returns its size; 0 without a node. `all` counts the rows of `t3` to `t10`;
// `brushes` is how many brushes there are.
fn put_root(
    names: &[u8],
    t3: &[u32],
    t4: &[u32],
    t5: &[u32],
    t6: &[u32],
    t7: &[u32],
    t8: &[u32],
    t9: &[u32],
    t10: &[u32],
    all: Counts,
    brushes: usize,
    out: &mut [u8],
) -> usize
    requires tables_sized { TablesSized all t3.now t4.now t5.now t6.now t7.now t8.now t9.now t10.now }
    requires some { Some (OfNodes names.now (table_rows t3.now t4.now t5.now t6.now t7.now t8.now t9.now
        t10.now) brushes) nodes_bytes out.old }
    ensures { Each (OfNodes names.now
        (table_rows t3.now t4.now t5.now t6.now t7.now
        t8.now t9.now t10.now) brushes) nodes_bytes out.old out.new result }
{
    if all.nodes == 0 {
        return 0;
    }
    let n = START;
    let root = b3d_write_nodes::write_node(
        names, t3, t4, t5, t6, t7, t8, t9, t10, all, ALL_LEVELS, n, out,
    );
    root.size
}

// Writes the whole file to the start of `out`: BB3D's header and `version`, TEXS and BRUS, and the nodes. Returns its size. The bytes behind it stay as they
// were.
pub fn write_file(
    names: &[u8],
    version: u32,
    slots: u32,
    t1: &[u32],
    t2: &[u32],
    t3: &[u32],
    t4: &[u32],
    t5: &[u32],
    t6: &[u32],
    t7: &[u32],
    t8: &[u32],
    t9: &[u32],
    t10: &[u32],
    all: Counts,
    out: &mut [u8],
) -> usize
    requires tables_sized { TablesSized all t3.now t4.now t5.now t6.now t7.now t8.now t9.now t10.now }
    requires some { Some (OfScene names.now t1.now t2.now
        (table_rows t3.now t4.now t5.now t6.now t7.now t8.now t9.now t10.now) version slots) encode out.old }
    ensures { Each (OfScene names.now t1.now t2.now
        (table_rows t3.now t4.now t5.now t6.now t7.now
        t8.now t9.now t10.now) version slots) encode out.old out.new result }
{
    let a = put_lists(names, slots, t1, t2, &mut out[12..]);
    let brushes = t2.len() / BRUSH_WIDTH;
    let rest = &mut out[a + 12..];
    let b = put_root(names, t3, t4, t5, t6, t7, t8, t9, t10, all, brushes, rest);
    let n = a + b;
    shared_output::put_opening(out, letters::BB3D, n, version);
    n + 12
}
