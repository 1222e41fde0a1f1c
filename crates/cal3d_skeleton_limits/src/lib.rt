// Judges a skeleton file up to the row limits, in one walk and without any table: refusals 1 to 10. Whether its lists and parents tell the same trees is not
// asked here.
#![tactic(auto)]

ghost use Rattle.std.specs.Prelude.{◌≡◌, ◌<◌, IfErr};
ghost use Rattle.cal3d_spec.specs.Answers.{limited_skeleton};
ghost use Rattle.cal3d_skeleton_limits.specs.Verdicts.{verdict_of};

use layout::{Refusal, refusals};
use wire::Cursor;

// The header's numbers after the version, and how many children the bones have.
#[derive(Clone, Copy)]
pub struct SkeletonSummary {
    pub bones: u32,
    pub red: u32,
    pub green: u32,
    pub blue: u32,
    pub children: usize,
}

// Judges `file` up to the row limits: returns its summary, or the first of its refusals 1 to 10, whose place fits in 32 bits.
pub fn limited(file: &[u8]) -> Result<SkeletonSummary, Refusal>
    ensures value { result ≡ verdict_of (limited_skeleton file.now) }
    ensures place_fits { IfErr result (λ e. e.place < 4294967296) }
{
    let bones = cal3d_header::entry_count(file, 0x00465343, 1300, 3)?;
    let n = file.len();
    let from = Cursor { at: 24, end: n };
    let (children, c) = cal3d_skeleton_bones::judge_bones(file, from, wire::size(bones))?;
    if c.at < n {
        return Err(Refusal {
            number: refusals::CUT_ITEM,
            place: c.at,
        });
    }
    if 16383 < bones {
        return Err(Refusal {
            number: refusals::TOO_MANY_ROWS,
            place: 1,
        });
    }
    if 16383 < children {
        return Err(Refusal {
            number: refusals::TOO_MANY_ROWS,
            place: 2,
        });
    }
    Ok(SkeletonSummary {
        bones,
        red: wire::number_at(file, 12),
        green: wire::number_at(file, 16),
        blue: wire::number_at(file, 20),
        children,
    })
}
