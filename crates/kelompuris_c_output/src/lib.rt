// The C functions that write into a lent output, which terminals call: write a B3D file, its copy without names, a slip. `rust/build-lib` puts them beside
// those of kelompuris_c into the one archive, include/kelompuris.h declares them. Each promises what the function that it calls does, for every input. The
// output past the size written stays as found; on a refusal all of it does.
#![tactic(auto)]

ghost use Rattle.std.specs.Prelude.{◌≡◌};
ghost use Rattle.b3d_spec.specs.Answers.{clear_answer, clear_output};
ghost use Rattle.b3d_check.specs.Lent.{lent_of};
ghost use Rattle.b3d_write.specs.Writes.{Writes};
ghost use Rattle.slip.specs.Slips.{write_slip_answer, write_slip_output};
ghost use Rattle.slip_of_b3d.specs.FileSlips.{file_slip_answer, file_slip_output};
ghost use Rattle.kelompuris_c_mode.specs.Modes.{mode_of};

use b3d_spec::Written;

// Writes the shortest file that has the lent tables, with this version, n_texs and the names that `names` holds, in the mode with the number `mode`. Answers
// 12, then 11.
#[unsafe(no_mangle)]
pub extern "C" fn kelompuris_b3d_write(
    mode: u32,
    t1: &[u32],
    t2: &[u32],
    t3: &[u32],
    t4: &[u32],
    t5: &[u32],
    t6: &[u32],
    t7: &[u32],
    t8: &[u32],
    t9: &[u32],
    t10: &[u32],
    counts: &[u32; 10],
    version: u32,
    n_texs: u32,
    names: &[u8],
    out: &mut [u8],
) -> Written
    ensures { Writes (mode_of mode) (lent_of version n_texs counts.now t1.now t2.now t3.now
        t4.now t5.now
        t6.now t7.now t8.now t9.now t10.now) names.now out.old
        out.new result }
{
    let m = kelompuris_c_mode::mode_of(mode);
    b3d_write::write(
        m, t1, t2, t3, t4, t5, t6, t7, t8, t9, t10, counts, version, n_texs, names, out,
    )
}

// Writes the copy of `file` without names into `out`. Answers 1 to 10 of the file, in lenient mode, then 11.
#[unsafe(no_mangle)]
pub extern "C" fn kelompuris_b3d_clear(file: &[u8], out: &mut [u8]) -> Written
    ensures value { result ≡ clear_answer file.now out.old }
    ensures out_after { out.new ≡ clear_output file.now out.old }
{
    b3d_clear::clear(file, out)
}

// Writes the slip of the twelve `numbers` into `out`. Answers 13, then 11.
#[unsafe(no_mangle)]
pub extern "C" fn kelompuris_slip_write(numbers: &[u32; 12], out: &mut [u8]) -> Written
    ensures value { result ≡ write_slip_answer numbers.now out.old }
    ensures out_after { out.new ≡ write_slip_output numbers.now out.old }
{
    slip::write_slip(*numbers, out)
}

// Writes the slip of `file`, judged in lenient mode, into `out`. Answers 1 to 10 of the file, then 11.
#[unsafe(no_mangle)]
pub extern "C" fn kelompuris_b3d_slip(file: &[u8], out: &mut [u8]) -> Written
    ensures value { result ≡ file_slip_answer file.now out.old }
    ensures out_after { out.new ≡ file_slip_output file.now out.old }
{
    slip_of_b3d::slip_of(file, out)
}
