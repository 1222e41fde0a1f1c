// Tables 1, 2 and 3, tables 4 to 7 and tables 8 to 10, each filled by its walk. The row counts are known: where tables have no rows, the file is not walked.
#![tactic(auto)]

ghost use Rattle.std.specs.Prelude.{◌≡◌, ◌<◌, ◌≤◌, length};
ghost use Rattle.std.proofs.lemmas.List.Edits.{sets as stored};
ghost use Rattle.layout.specs.Rows.{joined};
ghost use Rattle.b3d_spec_plain_rows.specs.Rows.{file_rows};

// Stores the rows of table `k` (1, 2 or 3) of `file`, which has `rows` rows, in `out`. The cells behind them stay as they were.
pub fn one_table(file: &[u8], k: usize, rows: u32, out: &mut [u32])
    requires { (1 ≤ k) × (k ≤ 3) × (length file.now < 0x100000000) × (rows ≡ length (file_rows k file.now))
        × (length (joined (file_rows k file.now)) ≤ length out.old) }
    ensures { out.new ≡ stored out.old 0 (joined (file_rows k file.now)) }
{
    if rows == 0 {
        return;
    }
    if k == 1 {
        b3d_read_materials::fill_textures(file, out);
    } else if k == 2 {
        b3d_read_materials::fill_brushes(file, out);
    } else {
        b3d_read_node_table::store_nodes(file, out);
    }
}

// Stores the rows of tables 4 to 7 of `file`, which has `rows` meshes, in `t4` to `t7`: without a mesh none has a row. The cells behind the rows stay as they
// were.
pub fn meshes(
    file: &[u8],
    rows: u32,
    t4: &mut [u32],
    t5: &mut [u32],
    t6: &mut [u32],
    t7: &mut [u32],
)
    requires { (length file.now < 0x100000000) × (rows ≡ length (file_rows 4 file.now))
        × (length (joined (file_rows 4 file.now)) ≤ length t4.old) × (length (joined (file_rows 5 file.now)) ≤ length t5.old)
        × (length (joined (file_rows 6 file.now)) ≤ length t6.old) × (length (joined (file_rows 7 file.now)) ≤ length t7.old) }
    ensures { (t4.new ≡ stored t4.old 0 (joined (file_rows 4 file.now)))
        × (t5.new ≡ stored t5.old 0 (joined (file_rows 5 file.now)))
        × (t6.new ≡ stored t6.old 0 (joined (file_rows 6 file.now)))
        × (t7.new ≡ stored t7.old 0 (joined (file_rows 7 file.now))) }
{
    if rows == 0 {
        return;
    }
    b3d_read_meshes::store_meshes(file, t4, t5, t6, t7);
}

// Stores the rows of tables 8 to 10 of `file`, which has `weights` weights and `lists` key lists, in `t8` to `t10`: without a list there are no keys. The
// cells behind the rows stay as they were.
pub fn moves(file: &[u8], weights: u32, lists: u32, t8: &mut [u32], t9: &mut [u32], t10: &mut [u32])
    requires { (length file.now < 0x100000000) × (weights ≡ length (file_rows 8 file.now)) × (lists ≡ length (file_rows 9 file.now))
        × (length (joined (file_rows 8 file.now)) ≤ length t8.old) × (length (joined (file_rows 9 file.now)) ≤ length t9.old)
        × (length (joined (file_rows 10 file.now)) ≤ length t10.old) }
    ensures { (t8.new ≡ stored t8.old 0 (joined (file_rows 8 file.now)))
        × (t9.new ≡ stored t9.old 0 (joined (file_rows 9 file.now)))
        × (t10.new ≡ stored t10.old 0 (joined (file_rows 10 file.now))) }
{
    if weights == 0 {
        if lists == 0 {
            return;
        }
    }
    b3d_read_animation::store_animation(file, t8, t9, t10);
}
