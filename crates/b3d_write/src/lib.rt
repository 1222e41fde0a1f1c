// The writer: writes the shortest file that has the lent tables and names, and gives the answer of paper 01 for all tables.
#![tactic(auto)]

ghost use Rattle.b3d_check.specs.Lent.{lent_of};
ghost use Rattle.b3d_write.specs.Writes.{Writes};

use b3d_spec::{Mode, Written};
use layout::{MOST_BYTES, refusals};

// Writes the shortest file that has the tables `t1` to `t10`, `counts`, `version` and n_texs (`slots`), with names in `names`, to the start of `out`. Returns
// 0 and the size written; 12 where no file that `mode` accepts has them; 11 with the size needed where `out` is too short. Where refused `out` stays as it
// was; past the file it stays so too.
pub fn write(
    mode: Mode,
    t1: &[u32],
    t2: &[u32],
    t3: &[u32],
    t4: &[u32],
    t5: &[u32],
    t6: &[u32],
    t7: &[u32],
    t8: &[u32],
    t9: &[u32],
    t10: &[u32],
    counts: &[u32; 10],
    version: u32,
    slots: u32,
    names: &[u8],
    out: &mut [u8],
) -> Written
    ensures { Writes mode (lent_of version slots counts.now
        t1.now t2.now t3.now t4.now t5.now
        t6.now t7.now t8.now t9.now t10.now) names.now out.old
        out.new result }
{
    let unsound = Written {
        number: refusals::NO_SUCH_TABLES,
        place: 0,
        size: 0,
    };
    if !b3d_check::sound(
        mode, version, slots, counts, t1, t2, t3, t4, t5, t6, t7, t8, t9, t10, names,
    ) {
        return unsound;
    }
    let all = b3d_check_table_lengths::sizes(counts);
    let textures = wire::size(counts[0]);
    let brushes = wire::size(counts[1]);
    let size = b3d_write_size::file_bytes(slots, textures, brushes, all, t1, t2, t3, t4, t9);
    if MOST_BYTES < size {
        return unsound;
    }
    if out.len() < size {
        return Written {
            number: refusals::TOO_SHORT,
            place: size as u32,
            size: 0,
        };
    }
    b3d_write_counted::write_counted(
        names, version, slots, textures, brushes, all, t1, t2, t3, t4, t5, t6, t7, t8, t9, t10, out,
    );
    Written {
        number: 0,
        place: 0,
        size: size as u32,
    }
}
