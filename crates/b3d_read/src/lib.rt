// The reader: stores a file's ten tables in lent slices, and gives the answer of paper 01 for every file and tables of every length.
#![tactic(auto)]

ghost use Rattle.std.specs.Prelude.{[], ◌∷◌};
ghost use Rattle.b3d_read.specs.Reads.{Reads};

use b3d_spec::{Answer, Mode};

// Reads `file` in `mode` into the ten lent tables `t1` to `t10`: stores their rows, and what stood behind them stays. Where the file is refused, or a table
// is too short, each table stays as it was. Returns number, place, version, n_texs and the ten row counts.
pub fn read(
    mode: Mode,
    file: &[u8],
    t1: &mut [u32],
    t2: &mut [u32],
    t3: &mut [u32],
    t4: &mut [u32],
    t5: &mut [u32],
    t6: &mut [u32],
    t7: &mut [u32],
    t8: &mut [u32],
    t9: &mut [u32],
    t10: &mut [u32],
) -> Answer
    ensures { Reads mode file.now
        (t1.old ∷ t2.old ∷ t3.old ∷ t4.old ∷ t5.old
        ∷ t6.old ∷ t7.old ∷ t8.old ∷ t9.old ∷ t10.old ∷ [])
        (t1.new ∷ t2.new ∷ t3.new ∷ t4.new ∷ t5.new
        ∷ t6.new ∷ t7.new ∷ t8.new ∷ t9.new ∷ t10.new ∷ []) result }
{
    let answer = b3d_read_answer::answer_for(
        mode,
        file,
        t1.len(),
        t2.len(),
        t3.len(),
        t4.len(),
        t5.len(),
        t6.len(),
        t7.len(),
        t8.len(),
        t9.len(),
        t10.len(),
    );
    if answer.number != 0 {
        return answer;
    }
    b3d_judge::are_bytes(file);
    let counts = answer.counts;
    b3d_read_tables::store_tables(file, counts, t1, t2, t3, t4, t5, t6, t7, t8, t9, t10);
    answer
}
