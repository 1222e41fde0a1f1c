// What differs between two files, as a list in a lent output. No table is needed. One walk counts the bytes of the list, and then puts them.
#![tactic(auto)]

ghost use Rattle.std.specs.Prelude.{◌≡◌, length};
ghost use Rattle.b3d_compare_spec.specs.Compare.{compare_answer, compare_output, room_for, compared, output_after};
ghost use Rattle.b3d_compare_files.specs.Files.{AcceptedFile, files_bytes};

use b3d_compare_spec::Compared;
use b3d_spec::Mode;
use layout::refusals;

// Writes the list of two accepted files with the twelve numbers `x` and `y`; where the output is too short, answers 11 and the size that is needed.
fn list_into(a: &[u8], b: &[u8], x: [u32; 12], y: [u32; 12], out: &mut [u8]) -> Compared
    requires { AcceptedFile a.now x × AcceptedFile b.now y }
    ensures value { result ≡ compared (room_for (length out.old) (files_bytes a.now b.now x y)) }
    ensures out_after { out.new ≡ output_after (room_for (length out.old) (files_bytes a.now b.now x y))
        out.old }
{
    b3d_judge::are_bytes(a);
    b3d_judge::are_bytes(b);
    let size = b3d_compare_files::put_list(a, b, x, y, false, out);
    if size == 0 {
        return Compared {
            number: 0,
            place: 0,
            which: 0,
            size: 0,
        };
    }
    if out.len() < size {
        return Compared {
            number: refusals::TOO_SHORT,
            place: size as u32,
            which: 0,
            size: 0,
        };
    }
    b3d_compare_files::put_list(a, b, x, y, true, out);
    Compared {
        number: 0,
        place: 0,
        which: 0,
        size: size as u32,
    }
}

// Writes the list of what differs between two files, judged in lenient mode, into the output, and says how long it is; what stood behind it stays. Where the
// first file is refused (1 to 10, which 1), or the second (which 2), or the output is too short (11, which 0, and the size of the list), the output stays
// as it was.
pub fn compare(first: &[u8], second: &[u8], out: &mut [u8]) -> Compared
    ensures value { result ≡ compare_answer first.now second.now out.old }
    ensures out_after { out.new ≡ compare_output first.now second.now out.old }
{
    let x = b3d_read_answer::judge_answer(Mode::Lenient, first);
    if x.number != 0 {
        return Compared {
            number: x.number,
            place: x.place,
            which: 1,
            size: 0,
        };
    }
    let y = b3d_read_answer::judge_answer(Mode::Lenient, second);
    if y.number != 0 {
        return Compared {
            number: y.number,
            place: y.place,
            which: 2,
            size: 0,
        };
    }
    list_into(
        first,
        second,
        slip_of_b3d::numbers_of(x),
        slip_of_b3d::numbers_of(y),
        out,
    )
}
