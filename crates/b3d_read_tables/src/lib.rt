// The ten tables of a file filled, their row counts being known.
#![tactic(auto)]

ghost use Rattle.std.specs.Prelude.{[], ◌∷◌, length};
ghost use Rattle.b3d_read_tables.specs.Fills.{Fillable, Filled};

// Stores the rows of the ten tables of `file` in `table1` to `table10`; `rows` holds how many each has. The cells behind them stay as they were.
pub fn store_tables(
    file: &[u8],
    rows: [u32; 10],
    table1: &mut [u32],
    table2: &mut [u32],
    table3: &mut [u32],
    table4: &mut [u32],
    table5: &mut [u32],
    table6: &mut [u32],
    table7: &mut [u32],
    table8: &mut [u32],
    table9: &mut [u32],
    table10: &mut [u32],
)
    requires { Fillable file.now rows (length table1.old ∷ length table2.old ∷ length table3.old ∷ length table4.old ∷ length table5.old
        ∷ length table6.old ∷ length table7.old ∷ length table8.old ∷ length table9.old ∷ length table10.old ∷ []) }
    ensures { Filled file.now
        (table1.old ∷ table2.old ∷ table3.old ∷ table4.old ∷ table5.old
        ∷ table6.old ∷ table7.old ∷ table8.old ∷ table9.old ∷ table10.old ∷ [])
        (table1.new ∷ table2.new ∷ table3.new ∷ table4.new ∷ table5.new
        ∷ table6.new ∷ table7.new ∷ table8.new ∷ table9.new ∷ table10.new ∷ []) }
{
    b3d_read_table_groups::one_table(file, 1, rows[0], table1);
    b3d_read_table_groups::one_table(file, 2, rows[1], table2);
    b3d_read_table_groups::one_table(file, 3, rows[2], table3);
    b3d_read_table_groups::meshes(file, rows[3], table4, table5, table6, table7);
    b3d_read_table_groups::moves(file, rows[7], rows[8], table8, table9, table10);
}
