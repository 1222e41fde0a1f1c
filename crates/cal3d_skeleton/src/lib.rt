// The reader of skeleton files: bones and children into lent tables, with 02's answer to every file and to tables of every length.
#![tactic(auto)]

ghost use Rattle.std.specs.Prelude.{◌≡◌, ◌<◌, ◌≤◌, IfErr};
ghost use Rattle.layout.specs.Result.{reject};
ghost use Rattle.cal3d_spec.specs.Answers.{judge_skeleton, skeleton_answer};
ghost use Rattle.cal3d_skeleton_limits.specs.Verdicts.{verdict_of};
ghost use Rattle.cal3d_skeleton.specs.Skeletons.{accepted_as, ReadsSkeleton};

use cal3d_skeleton_limits::SkeletonSummary;
use cal3d_spec::SkeletonAnswer;
use layout::{Refusal, refusals};
use wire::Cursor;

// Returns the answer of a refusal with `number` at `place`.
fn refused(number: u32, place: u32) -> SkeletonAnswer
    ensures { result ≡ skeleton_answer (reject number place) }
{
    SkeletonAnswer {
        number,
        place,
        head: [0; 5],
        counts: [0; 2],
    }
}

// Returns the answer of an accepted file with the summary `x`.
fn accepted(x: SkeletonSummary) -> SkeletonAnswer
    requires { x.children ≤ 16383 }
    ensures { result ≡ accepted_as x }
{
    SkeletonAnswer {
        number: 0,
        place: 0,
        head: [1300, x.bones, x.red, x.green, x.blue],
        counts: [x.bones, x.children as u32],
    }
}

// Judges `file`: returns its summary, or the first of its refusals 1 to 10, then 16, whose place fits in 32 bits.
fn judged(file: &[u8]) -> Result<SkeletonSummary, Refusal>
    ensures value { result ≡ verdict_of (judge_skeleton file.now) }
    ensures place_fits { IfErr result (λ e. e.place < 4294967296) }
{
    let x = cal3d_skeleton_limits::limited(file)?;
    let bones = wire::size(x.bones);
    let end = file.len();
    cal3d_skeleton_tree_file::same_trees(file, Cursor { at: 24, end }, bones)?;
    Ok(x)
}

// Judges `file` without any table: answers 1 to 10 or 16, or 0 with the header's numbers and the counts.
pub fn judge(file: &[u8]) -> SkeletonAnswer
    ensures { result ≡ skeleton_answer (judge_skeleton file.now) }
{
    match judged(file) {
        Err(e) => refused(e.number, e.place as u32),
        Ok(x) => accepted(x),
    }
}

// Reads a skeleton file into two lent tables; words past a table's last row stay as found. If the file is refused (1 to 10, 16), or a table is too short (11,
// the lowest), each table stays as found.
pub fn read_skeleton(file: &[u8], bones: &mut [u32], children: &mut [u32]) -> SkeletonAnswer
    ensures { ReadsSkeleton file.now bones.old children.old bones.new children.new result }
{
    match judged(file) {
        Err(e) => refused(e.number, e.place as u32),
        Ok(x) => {
            let count = wire::size(x.bones);
            if bones.len() / 23 < count {
                return refused(refusals::TOO_SHORT, 1);
            }
            if children.len() < x.children {
                return refused(refusals::TOO_SHORT, 2);
            }
            let end = file.len();
            cal3d_skeleton_rows::fill(file, Cursor { at: 24, end }, count, bones, children);
            accepted(x)
        }
    }
}
