// Checks that the child lists and the parents of a skeleton file tell the same trees (refusal 16). It walks over the file with local rows of numbers, in time
// that grows with the file.
#![tactic(auto)]

ghost use Rattle.std.specs.Prelude.{◌≡◌, [], map, ◌<◌, ◌≤◌, length, IfErr};
ghost use Rattle.cal3d_spec.specs.Skeletons.{parent_of, list_of};
ghost use Rattle.cal3d_spec.specs.Trees.{trees};
ghost use Rattle.cal3d_skeleton_tree_check.specs.Scores.{Zeros, Scored, place_at};
ghost use Rattle.cal3d_skeleton_tree_file.specs.Links.{GoodBones, bones_at, told_of};

use layout::{Refusal, refusals};
use wire::Cursor;

// Stores the parents of the `bones` bones from `from` on in `out`.
fn gather(s: &[u8], from: Cursor, bones: usize, out: &mut [u32])
    requires { GoodBones s.now from bones × (length out.old ≡ bones) }
    ensures { out.new ≡ map parent_of (bones_at s.now from bones) }
{
    let mut c = from;
    for i in 0..bones {
        let Some(bone) = cal3d_skeleton_bones::lay_bone(s, c, bones) else {
            return;
        };
        out[i] = wire::number_at(s, bone.numbers + 56);
        c = bone.next;
    }
}

// Adds to `scores` what the lists of the `bones` bones from `from` on give.
fn tell(s: &[u8], from: Cursor, bones: usize, parents: &[u32], scores: &mut [u32])
    requires { GoodBones s.now from bones × (length parents.now ≡ bones) × (length scores.old ≡ bones) × Zeros scores.old }
    ensures { Scored parents.now (map list_of (bones_at s.now from bones)) [] scores.new }
{
    let mut c = from;
    let mut entries: usize = 0;
    for i in 0..bones {
        let Some(bone) = cal3d_skeleton_bones::lay_bone(s, c, bones) else {
            return;
        };
        cal3d_skeleton_tree_scores::note_list(
            s,
            bone.numbers + 80,
            bone.children,
            i as u32,
            parents,
            entries,
            scores,
        );
        entries += bone.children;
        c = bone.next;
    }
}

// Returns the place of the first byte of bone `which` of the `bones` bones from `from` on.
fn bone_at(s: &[u8], from: Cursor, bones: usize, which: usize) -> usize
    requires { GoodBones s.now from bones × (which < bones) }
    ensures { (result ≡ place_at (bones_at s.now from bones) which) × (result ≤ length s.now) }
{
    let mut c = from;
    for _ in 0..which {
        let Some(bone) = cal3d_skeleton_bones::lay_bone(s, c, bones) else {
            return c.at;
        };
        c = bone.next;
    }
    c.at
}

// Checks that lists and parents of the `bones` bones from `from` on tell the same trees, with lent rows for parents and scores, the scores being 0. Returns
// 16 at the first byte of the lowest bone that is not right.
fn same_trees_by(
    s: &[u8],
    from: Cursor,
    bones: usize,
    parents: &mut [u32],
    scores: &mut [u32],
) -> Result<(), Refusal>
    requires { GoodBones s.now from bones × (length parents.old ≡ bones) × (length scores.old ≡ bones) × Zeros scores.old }
    ensures value { result ≡ told_of (trees (bones_at s.now from bones)) }
    ensures place_fits { IfErr result (λ e. e.place < 4294967296) }
{
    gather(s, from, bones, parents);
    tell(s, from, bones, parents, scores);
    let lowest = cal3d_skeleton_tree_check::stray(parents, scores);
    if lowest < bones {
        return Err(Refusal {
            number: refusals::NO_TREE,
            place: bone_at(s, from, bones, lowest),
        });
    }
    Ok(())
}

// Checks that lists and parents of the `bones` bones from `from` on tell the same trees. Returns 16 at the first byte of the lowest bone that is not right;
// that place fits in 32 bits.
pub fn same_trees(s: &[u8], from: Cursor, bones: usize) -> Result<(), Refusal>
    requires { GoodBones s.now from bones }
    ensures value { result ≡ told_of (trees (bones_at s.now from bones)) }
    ensures place_fits { IfErr result (λ e. e.place < 4294967296) }
{
    let mut parents = cal3d_skeleton_tree_check::zeros();
    let mut scores = cal3d_skeleton_tree_check::zeros();
    same_trees_by(s, from, bones, &mut parents[..bones], &mut scores[..bones])
}
