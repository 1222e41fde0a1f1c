// The C functions for cal3d skeletons and meshes, which terminals call. `rust/build-lib` puts them into the one archive, include/kelompuris.h declares them.
// A slice is a pointer and a number of elements. Each promises what the function that it calls does, for every input.
#![tactic(auto)]

ghost use Rattle.std.specs.Prelude.{◌≡◌};
ghost use Rattle.cal3d_spec.specs.Answers.{judge_skeleton, skeleton_answer, judge_mesh, mesh_answer};
ghost use Rattle.cal3d_skeleton.specs.Skeletons.{ReadsSkeleton};
ghost use Rattle.cal3d_mesh.specs.Meshes.{ReadsMesh};

use cal3d_spec::{MeshAnswer, SkeletonAnswer};

// Judges a skeleton file without any table: answers 1 to 10 or 16, or 0 with the header's numbers and the counts.
#[unsafe(no_mangle)]
pub extern "C" fn kelompuris_csf_judge(file: &[u8]) -> SkeletonAnswer
    ensures { result ≡ skeleton_answer (judge_skeleton file.now) }
{
    cal3d_skeleton::judge(file)
}

// Reads a skeleton file into two lent tables. Words past a table's last row stay as found; on a refusal both tables do.
#[unsafe(no_mangle)]
pub extern "C" fn kelompuris_csf_read(
    file: &[u8],
    bones: &mut [u32],
    children: &mut [u32],
) -> SkeletonAnswer
    ensures { ReadsSkeleton file.now bones.old children.old bones.new children.new result }
{
    cal3d_skeleton::read_skeleton(file, bones, children)
}

// Judges a mesh file, whose bone ids are below `bone_count`, without any table: answers 1 to 10, or 0 with the header's numbers and the counts.
#[unsafe(no_mangle)]
pub extern "C" fn kelompuris_cmf_judge(file: &[u8], bone_count: u32) -> MeshAnswer
    ensures { result ≡ mesh_answer (judge_mesh bone_count file.now) }
{
    cal3d_mesh_judge::judge(file, bone_count)
}

// Reads a mesh file, whose bone ids are below `bone_count`, into six lent tables. Words past a table's last row stay as found; on a refusal all tables do.
#[unsafe(no_mangle)]
pub extern "C" fn kelompuris_cmf_read(
    file: &[u8],
    bone_count: u32,
    submeshes: &mut [u32],
    vertices: &mut [u32],
    maps: &mut [u32],
    influences: &mut [u32],
    springs: &mut [u32],
    faces: &mut [u32],
) -> MeshAnswer
    ensures { ReadsMesh bone_count file.now submeshes.old vertices.old maps.old influences.old
        springs.old faces.old
        submeshes.new vertices.new maps.new influences.new springs.new faces.new result }
{
    cal3d_mesh::read_mesh(
        file, bone_count, submeshes, vertices, maps, influences, springs, faces,
    )
}
