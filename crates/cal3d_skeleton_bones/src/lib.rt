// The bones of a skeleton file by cursor: judged one after the other, or the parts of one bone for a walk that knows that they are good.
#![tactic(auto)]

ghost use Rattle.std.specs.Prelude.{◌*◌, length};
ghost use Rattle.wire.specs.Cursors.{Inside, left};
ghost use Rattle.layout.specs.Counted.{times};
ghost use Rattle.shared_counted_lists.specs.Sums.{Sums};
ghost use Rattle.cal3d_spec.specs.Skeletons.{read_bone};
ghost use Rattle.cal3d_skeleton_bones.specs.Bones.{Lays, read_links, link_count, child_count, children_in};

use layout::Refusal;
use wire::Cursor;

// Judges a bone's numbers after its name, and its children. Returns how many children it has and the cursor after them, or a refusal.
fn judge_links(s: &[u8], c: Cursor, bones: usize) -> Result<(usize, Cursor), Refusal>
    requires { Inside c (length s.now) }
    ensures { Sums link_count (read_links bones c.at (left c s.now)) c 80 result }
{
    let children = shared_counted_lists::link_row(s, c, 14, 4, bones)?;
    let count = wire::size(wire::number_at(s, c.at + 76));
    let next = shared_counted_lists::id_rows(s, children, count, 1, 1, bones)?;
    Ok((count, next))
}

// Judges one bone of a skeleton with `bones` bones. Returns how many children it has and the cursor after it, or a refusal.
fn judge_bone(s: &[u8], c: Cursor, bones: usize) -> Result<(usize, Cursor), Refusal>
    requires { Inside c (length s.now) }
    ensures { Sums child_count (read_bone bones c.at (left c s.now)) c 84 result }
{
    let numbers = shared_counted_lists::pass_name(s, c)?;
    judge_links(s, numbers, bones)
}

// Judges the `bones` bones of a skeleton. Returns how many children they have and the cursor after them, or the first refusal. Each takes 84 bytes or more,
// so that the walk ends with the bytes, whatever the number says.
pub fn judge_bones(s: &[u8], from: Cursor, bones: usize) -> Result<(usize, Cursor), Refusal>
    requires { Inside from (length s.now) }
    ensures { Sums children_in (times bones (read_bone bones) from.at (left from s.now)) from (bones * 84) result }
{
    let mut c = from;
    let mut children: usize = 0;
    for _ in 0..bones {
        let (n, next) = judge_bone(s, c, bones)?;
        children += n;
        c = next;
    }
    Ok((children, c))
}

// The place of a bone's numbers, how many children follow them, and the cursor after those.
#[derive(Clone, Copy)]
pub struct Laid {
    pub numbers: usize,
    pub children: usize,
    pub next: Cursor,
}

// Returns the parts of the bone at `c` of a skeleton with `bones` bones: the step of every walk that fills. Returns `None` if the bone is refused.
pub fn lay_bone(s: &[u8], c: Cursor, bones: usize) -> Option<Laid>
    requires { Inside c (length s.now) }
    ensures { Lays s.now bones (read_bone bones c.at (left c s.now)) c result }
{
    let Ok(numbers) = shared_counted_lists::pass_name(s, c) else {
        return None;
    };
    let Ok((children, next)) = judge_links(s, numbers, bones) else {
        return None;
    };
    Some(Laid {
        numbers: numbers.at,
        children,
        next,
    })
}
