// The C functions that read, which terminals call: judge and read a B3D file, read a slip, read a tray label. `rust/build-lib` makes the archive,
// include/kelompuris.h declares them. A slice is a pointer and a number of elements. Each promises what the function that it calls does, for every input.
#![tactic(auto)]

ghost use Rattle.std.specs.Prelude.{◌≡◌, [], ◌∷◌, ◌+◌, ◌≤◌, length};
ghost use Rattle.b3d_spec.specs.Answers.{judge, answer};
ghost use Rattle.b3d_read.specs.Reads.{Reads};
ghost use Rattle.slip.specs.Slips.{read_slip_answer};
ghost use Rattle.b3d_label_spec.specs.Walk.{label_of};
ghost use Rattle.kelompuris_c_mode.specs.Modes.{mode_of};

use b3d_label_spec::TrayLabel;
use b3d_spec::Answer;
use slip::Slip;

// Judges `file` in the mode with the number `mode`, without any table: answers 1 to 10, or 0 with version, n_texs and counts.
#[unsafe(no_mangle)]
pub extern "C" fn kelompuris_b3d_judge(mode: u32, file: &[u8]) -> Answer
    ensures { result ≡ answer (judge (mode_of mode) file.now) }
{
    let m = kelompuris_c_mode::mode_of(mode);
    b3d_read_answer::judge_answer(m, file)
}

// Reads `file` in the mode with the number `mode` into ten lent tables. Words past a table's last row stay as found; on a refusal all tables do.
#[unsafe(no_mangle)]
pub extern "C" fn kelompuris_b3d_read(
    mode: u32,
    file: &[u8],
    t1: &mut [u32],
    t2: &mut [u32],
    t3: &mut [u32],
    t4: &mut [u32],
    t5: &mut [u32],
    t6: &mut [u32],
    t7: &mut [u32],
    t8: &mut [u32],
    t9: &mut [u32],
    t10: &mut [u32],
) -> Answer
    ensures { Reads (mode_of mode) file.now
        (t1.old ∷ t2.old ∷ t3.old ∷ t4.old ∷ t5.old
        ∷ t6.old ∷ t7.old ∷ t8.old ∷ t9.old ∷ t10.old ∷ [])
        (t1.new ∷ t2.new ∷ t3.new ∷ t4.new ∷ t5.new
        ∷ t6.new ∷ t7.new ∷ t8.new ∷ t9.new ∷ t10.new ∷ []) result }
{
    let m = kelompuris_c_mode::mode_of(mode);
    b3d_read::read(m, file, t1, t2, t3, t4, t5, t6, t7, t8, t9, t10)
}

// Reads a slip: answers its twelve numbers, or 13 and its place.
#[unsafe(no_mangle)]
pub extern "C" fn kelompuris_slip_read(slip: &[u8]) -> Slip
    ensures { result ≡ read_slip_answer slip.now }
{
    slip::read_slip(slip)
}

// Answers the place and length of the root's name, which lies in `file`, and the vertices of its mesh, without judging the file; or 14.
#[unsafe(no_mangle)]
pub extern "C" fn kelompuris_b3d_label(file: &[u8]) -> TrayLabel
    ensures value { result ≡ label_of file.now }
    ensures name_length_in_bounds { result.name_place + result.name_length ≤ length file.now }
{
    b3d_label::label(file)
}
