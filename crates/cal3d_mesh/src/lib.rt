// The reader of mesh files: six tables into lent slices, with 02's answer to every file, number of bones and tables of every length.
#![tactic(auto)]

ghost use Rattle.cal3d_mesh.specs.Meshes.{ReadsMesh};

use cal3d_spec::MeshAnswer;

// Reads a mesh file, whose bone ids are below `bone_count`, into six lent tables; words past a table's last row stay as found. If the file is refused (1 to
// 10), or a table is too short (11, the lowest), each table stays as found.
pub fn read_mesh(
    file: &[u8],
    bone_count: u32,
    submeshes: &mut [u32],
    vertices: &mut [u32],
    maps: &mut [u32],
    influences: &mut [u32],
    springs: &mut [u32],
    faces: &mut [u32],
) -> MeshAnswer
    ensures { ReadsMesh bone_count file.now submeshes.old vertices.old maps.old influences.old
        springs.old faces.old
        submeshes.new vertices.new maps.new influences.new springs.new faces.new result }
{
    let judged = cal3d_mesh_judge::judge(file, bone_count);
    let answer = cal3d_mesh_answer_numbers::with_room(
        judged,
        submeshes.len(),
        vertices.len(),
        maps.len(),
        influences.len(),
        springs.len(),
        faces.len(),
    );
    if answer.number != 0 {
        return answer;
    }
    cal3d_mesh_fill::fill_mesh(file, submeshes, vertices, maps, influences, springs, faces);
    answer
}
