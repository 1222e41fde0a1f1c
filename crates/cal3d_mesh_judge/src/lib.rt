// The judge of mesh files: 02's answer to every file, without any table.
#![tactic(auto)]

ghost use Rattle.std.specs.Prelude.{◌≡◌};
ghost use Rattle.layout.specs.Result.{reject};
ghost use Rattle.cal3d_spec.specs.Rules.{named_bones};
ghost use Rattle.cal3d_spec.specs.Answers.{judge_mesh, mesh_answer};
ghost use Rattle.cal3d_mesh_submesh_lists.specs.Contents.{CountsWithin};
ghost use Rattle.cal3d_mesh_judge.specs.Limits.{row_counts, first_over, accepted_as, limited_as};

use cal3d_mesh_submesh_lists::Contents;
use cal3d_spec::MeshAnswer;
use layout::refusals;
use wire::Cursor;

// Returns the answer of a refusal with `number` at `place`.
pub fn refused(number: u32, place: u32) -> MeshAnswer
    ensures { result ≡ mesh_answer (reject number place) }
{
    MeshAnswer {
        number,
        place,
        head: [0; 2],
        counts: [0; 6],
    }
}

// Returns the answer of an accepted file with this number of submeshes, whose other rows are `t`.
fn accepted(submeshes: u32, t: Contents) -> MeshAnswer
    requires { CountsWithin t 16383 }
    ensures { result ≡ accepted_as submeshes t }
{
    MeshAnswer {
        number: 0,
        place: 0,
        head: [700, submeshes],
        counts: [
            submeshes,
            t.vertices as u32,
            t.maps as u32,
            t.influences as u32,
            t.springs as u32,
            t.faces as u32,
        ],
    }
}

// Returns the lowest table with more rows than a table may have; 0 if there is none.
fn first_over(submeshes: u32, t: Contents) -> u32
    ensures { result ≡ first_over 1 (row_counts submeshes t) }
{
    if 16383 < submeshes {
        return 1;
    }
    if 16383 < t.vertices {
        return 2;
    }
    if 16383 < t.maps {
        return 3;
    }
    if 16383 < t.influences {
        return 4;
    }
    if 16383 < t.springs {
        return 5;
    }
    if 16383 < t.faces {
        return 6;
    }
    0
}

// Returns the answer of a file by its row counts: 10 at the lowest table with too many rows, else accepted.
fn limited(submeshes: u32, t: Contents) -> MeshAnswer
    ensures { result ≡ limited_as submeshes t }
{
    let over = first_over(submeshes, t);
    if over != 0 {
        return refused(refusals::TOO_MANY_ROWS, over);
    }
    accepted(submeshes, t)
}

// Returns how many bones ids can name, of `bone_count` that the caller counts: a negative id names none.
fn named_bones(bone_count: u32) -> usize
    ensures { result ≡ named_bones bone_count }
{
    if 2147483648 < bone_count {
        return 2147483648;
    }
    wire::size(bone_count)
}

// Judges `file` without any table, bone ids being below `bone_count` and not negative: answers 1 to 10, or 0 with the header's numbers and the counts.
pub fn judge(file: &[u8], bone_count: u32) -> MeshAnswer
    ensures { result ≡ mesh_answer (judge_mesh bone_count file.now) }
{
    match cal3d_header::entry_count(file, 0x00464D43, 700, 0) {
        Err(e) => refused(e.number, e.place as u32),
        Ok(submeshes) => {
            let n = file.len();
            match cal3d_mesh_submeshes::judge_submeshes(
                file,
                Cursor { at: 12, end: n },
                named_bones(bone_count),
                wire::size(submeshes),
            ) {
                Err(e) => refused(e.number, e.place as u32),
                Ok((t, c)) => {
                    if n <= c.at {
                        return limited(submeshes, t);
                    }
                    refused(refusals::CUT_ITEM, c.at as u32)
                }
            }
        }
    }
}
