// Slips (E1): version, n_texs and the ten row counts of a scene as twelve numbers in groups. A writer from numbers to a lent output, and a reader.
#![tactic(auto)]

ghost use Rattle.std.specs.Prelude.{◌≡◌, [], ◌≤◌, length};
ghost use Rattle.wire.specs.Bytes.{over};
ghost use Rattle.layout.specs.Result.{reject};
ghost use Rattle.layout.specs.Refusals as refusals;
ghost use Rattle.shared_seven_bit_groups.specs.Groups.{write_numbers};
ghost use Rattle.slip.specs.Slips.{limits, limit_at, first_over, slip_of, write_slip_answer, write_slip_output, read_slip_answer};

use b3d_spec::{HIGHEST_VERSION, MOST_SLOTS, Written};
use layout::refusals;

// The answer of the slip reader: refusal number and place, or 0 and 0 with the twelve numbers.
#[repr(C)]
#[derive(Clone, Copy)]
pub struct Slip {
    pub number: u32,
    pub place: u32,
    pub numbers: [u32; 12],
}

// Returns the most that number `i` of a slip may be: 99, 8, then the row limit.
fn most(i: usize) -> u32
    ensures { result ≡ limit_at i }
{
    if i == 0 {
        return HIGHEST_VERSION;
    }
    if i == 1 {
        return MOST_SLOTS;
    }
    b3d_spec::ROW_LIMIT as u32
}

// Returns the position of the first number that is more than it may be; 12 if none is.
fn first_over(numbers: [u32; 12]) -> usize
    ensures { result ≡ first_over limits numbers }
{
    for i in 0..12 {
        if most(i) < numbers[i] {
            return i;
        }
    }
    12
}

// Returns how many bytes the slip of `numbers` has.
fn slip_size(numbers: [u32; 12]) -> usize
    ensures { (result ≡ length (write_numbers numbers [])) × (result ≤ 60) }
{
    let mut size: usize = 0;
    for i in 0..12 {
        size += shared_seven_bit_groups::groups_of(numbers[i]);
    }
    size
}

// Writes `numbers` in their groups over the front of `out`.
fn put_slip(numbers: [u32; 12], out: &mut [u8])
    requires { length (write_numbers numbers []) ≤ length out.old }
    ensures { out.new ≡ over (write_numbers numbers []) out.old }
{
    let mut at: usize = 0;
    for i in 0..12 {
        at = shared_seven_bit_groups::put_groups(numbers[i], out, at);
    }
}

// Writes the slip of `numbers` into `out` and returns its size; the output past it stays as found. Returns 13 and its position if a number is out of its
// range, then 11 and the size of the slip if `out` is too short: the output stays as found.
pub fn write_slip(numbers: [u32; 12], out: &mut [u8]) -> Written
    ensures value { result ≡ write_slip_answer numbers out.old }
    ensures out_after { out.new ≡ write_slip_output numbers out.old }
{
    let over = first_over(numbers);
    if over < 12 {
        return Written {
            number: refusals::NO_SLIP,
            place: over as u32,
            size: 0,
        };
    }
    let size = slip_size(numbers);
    if out.len() < size {
        return Written {
            number: refusals::TOO_SHORT,
            place: size as u32,
            size: 0,
        };
    }
    put_slip(numbers, out);
    Written {
        number: 0,
        place: 0,
        size: size as u32,
    }
}

// Returns the answer of a slip that is refused with 13 at `place`.
fn refused(place: usize) -> Slip
    requires { place ≤ 60 }
    ensures { result ≡ slip_of (reject refusals.no_slip place) }
{
    Slip {
        number: refusals::NO_SLIP,
        place: place as u32,
        numbers: [0; 12],
    }
}

// Reads a slip: returns its twelve numbers, or 13 and its place, for the empty slice at 0.
pub fn read_slip(slip: &[u8]) -> Slip
    ensures { result ≡ read_slip_answer slip.now }
{
    let mut numbers: [u32; 12] = [0; 12];
    let mut at: usize = 0;
    for i in 0..12 {
        match shared_seven_bit_groups::read_number(slip, at, most(i)) {
            Err(e) => return refused(e.place),
            Ok((n, next)) => {
                numbers[i] = n;
                at = next;
            }
        }
    }
    if at < slip.len() {
        return refused(at);
    }
    Slip {
        number: 0,
        place: 0,
        numbers,
    }
}
