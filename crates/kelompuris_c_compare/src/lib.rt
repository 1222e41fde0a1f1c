// What terminals call to compare two files, as a C function. `rust/build-lib` puts it beside those of kelompuris_c into the one archive,
// include/kelompuris.h declares it. It promises what `b3d_compare::compare` does, for every input.
#![tactic(auto)]

ghost use Rattle.std.specs.Prelude.{◌≡◌};
ghost use Rattle.b3d_compare_spec.specs.Compare.{compare_answer, compare_output};

use b3d_compare_spec::Compared;

// Writes the list of what differs between two files.
#[unsafe(no_mangle)]
pub extern "C" fn kelompuris_b3d_compare(first: &[u8], second: &[u8], out: &mut [u8]) -> Compared
    ensures value { result ≡ compare_answer first.now second.now out.old }
    ensures out_after { out.new ≡ compare_output first.now second.now out.old }
{
    b3d_compare::compare(first, second, out)
}
