// The submeshes of a mesh file by cursor, judged one after the other, and how many entries they hold in all.
#![tactic(auto)]

ghost use Rattle.std.specs.Prelude.{◌≡◌, length};
ghost use Rattle.wire.specs.Cursors.{Inside, left};
ghost use Rattle.layout.specs.Parts.{row};
ghost use Rattle.layout.specs.Counted.{times};
ghost use Rattle.shared_counted_lists.specs.Runs.{Runs};
ghost use Rattle.cal3d_spec.specs.Rules.{submesh_numbers};
ghost use Rattle.cal3d_spec.specs.Meshes.{read_submesh};
ghost use Rattle.cal3d_mesh_submesh_lists.specs.Contents.{Contains, CountsWithin, both, contents_of, contents_in};

use cal3d_mesh_submesh_lists::Contents;
use cal3d_mesh_vertices::SubmeshSizes;
use layout::{Refusal, refusals};
use wire::Cursor;

// Judges a submesh's six numbers, of which all but the first are counts. Returns the cursor after them; 5 at the first if they are cut, or 6 at a negative
// count.
fn pass_counts(s: &[u8], c: Cursor) -> Result<Cursor, Refusal>
    requires { Inside c (length s.now) }
    ensures { Runs (row submesh_numbers c.at (left c s.now)) c 24 result }
{
    let at = c.at;
    let end = c.end;
    if end - at < 24 {
        return Err(Refusal {
            number: refusals::CUT_ITEM,
            place: at,
        });
    }
    let good = shared_ids::first_invalid(s, Cursor { at: at + 4, end }, 5, 2147483648, false);
    if good < 5 {
        return Err(Refusal {
            number: refusals::RANGE,
            place: at + 4 + 4 * good,
        });
    }
    Ok(Cursor { at: at + 24, end })
}

// Judges one submesh, bone ids being below `bones`. Returns how many entries it holds and the cursor after it, or a refusal.
fn judge_submesh(s: &[u8], c: Cursor, bones: usize) -> Result<(Contents, Cursor), Refusal>
    requires { Inside c (length s.now) }
    ensures { Contains contents_of (read_submesh bones c.at (left c s.now)) c 24 result }
{
    let lists = pass_counts(s, c)?;
    let at = c.at;
    let faces = wire::size(wire::number_at(s, at + 8));
    let n = SubmeshSizes {
        vertices: wire::size(wire::number_at(s, at + 4)),
        springs: wire::size(wire::number_at(s, at + 16)),
        maps: wire::size(wire::number_at(s, at + 20)),
    };
    cal3d_mesh_submesh_lists::judge_lists(s, lists, bones, n, faces)
}

// Returns the sum of `a` and `b`, count by count.
fn plus(a: Contents, b: Contents) -> Contents
    requires { CountsWithin (both a b) 18446744073709551615 }
    ensures { result ≡ both a b }
{
    Contents {
        vertices: a.vertices + b.vertices,
        maps: a.maps + b.maps,
        influences: a.influences + b.influences,
        springs: a.springs + b.springs,
        faces: a.faces + b.faces,
    }
}

// Judges the given number of submeshes, bone ids being below `bones`. Returns how many entries they hold and the cursor after them, or the first refusal.
// Each takes 24 bytes or more, so that the walk ends with the bytes, whatever the number says.
pub fn judge_submeshes(
    s: &[u8],
    from: Cursor,
    bones: usize,
    submeshes: usize,
) -> Result<(Contents, Cursor), Refusal>
    requires { Inside from (length s.now) }
    ensures { Contains contents_in (times submeshes (read_submesh bones) from.at (left from s.now)) from 0 result }
{
    let mut c = from;
    let mut all = Contents {
        vertices: 0,
        maps: 0,
        influences: 0,
        springs: 0,
        faces: 0,
    };
    for _ in 0..submeshes {
        let (one, next) = judge_submesh(s, c, bones)?;
        all = plus(all, one);
        c = next;
    }
    Ok((all, c))
}
