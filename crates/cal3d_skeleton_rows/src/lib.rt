// Fills the two tables of a skeleton, bones and children, from the bytes of a file that was judged.
#![tactic(auto)]

ghost use Rattle.std.specs.Prelude.{◌≡◌, ◌+◌, ◌-◌, ◌*◌, ◌≤◌, length};
ghost use Rattle.std.proofs.lemmas.List.Edits.{sets as stored};
ghost use Rattle.wire.specs.Bytes.{over};
ghost use Rattle.wire.specs.Cursors.{Inside, left};
ghost use Rattle.layout.specs.Parts.{words_of};
ghost use Rattle.layout.specs.Rows.{joined, most_bytes};
ghost use Rattle.cal3d_spec.specs.Tables.{bone_rows, child_rows};
ghost use Rattle.cal3d_skeleton_bones.specs.Bones.{children_in};
ghost use Rattle.cal3d_skeleton_tree_file.specs.Links.{GoodBones, bones_at};
ghost use Rattle.cal3d_skeleton_rows.specs.Cells.{bone_cells};

use wire::Cursor;

// Stores a bone's row in `out` from word `base` on: the place `name` and the length of its name, which ends where its numbers stand; the numbers; and
// `before`, how many children came before.
fn put_bone(s: &[u8], name: usize, numbers: Cursor, before: usize, base: usize, out: &mut [u32])
    requires inside { Inside numbers (length s.now) × (numbers.at + 80 ≤ numbers.end) × (name ≤ numbers.at) × (length s.now ≤ most_bytes) }
    requires before_bound { (before ≤ 16383) × (base + 23 ≤ length out.old) }
    ensures { out.new ≡ stored out.old base
        (bone_cells name (numbers.at - name) (words_of 20 (left numbers s.now)) before) }
{
    let at = numbers.at;
    let label = [name as u32, (at - name) as u32];
    shared_table_words::put_cells(out, base, &label);
    shared_table_words::copy_words(s, numbers, 20, base + 2, out);
    let last = [before as u32];
    shared_table_words::put_cells(out, base + 22, &last);
}

// Stores the rows of the `count` bones from `from` on, and of their children, in the lent tables; words past the last row stay as found.
pub fn fill(s: &[u8], from: Cursor, count: usize, bones: &mut [u32], children: &mut [u32])
    requires good_bones { GoodBones s.now from count × (23 * count ≤ length bones.old) }
    requires count_in_bounds { (children_in (bones_at s.now from count) ≤ length children.old) × (children_in (bones_at s.now from count) ≤ 16383) }
    ensures bones_after { bones.new ≡ over (joined (bone_rows 0 (bones_at s.now from count))) bones.old }
    ensures children_after { children.new ≡ over (joined (child_rows (bones_at s.now from count))) children.old }
{
    let mut c = from;
    let mut before: usize = 0;
    for i in 0..count {
        let Some(bone) = cal3d_skeleton_bones::lay_bone(s, c, count) else {
            return;
        };
        let name = c.at + 4;
        let end = c.end;
        let numbers = Cursor {
            at: bone.numbers,
            end,
        };
        put_bone(s, name, numbers, before, 23 * i, bones);
        let at = bone.numbers + 80;
        shared_table_words::copy_words(s, Cursor { at, end }, bone.children, before, children);
        before += bone.children;
        c = bone.next;
    }
}
