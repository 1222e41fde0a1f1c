// Bytes put into a lent output from a place on, or only counted: bytes of a file, a number of four bytes, a number in groups. A walk that is wet puts; one
// that is dry counts, and leaves the output as it is. So one walk measures what it would write, and then writes it.
#![tactic(auto)]

ghost use Rattle.std.specs.Prelude.{◌+◌, ◌≤◌, [], length, take, drop};
ghost use Rattle.wire.specs.Bytes.{bytes};
ghost use Rattle.shared_seven_bit_groups.specs.Groups.{groups};
ghost use Rattle.shared_put_or_count.specs.Emits.{Emits, RoomFrom};

// Puts or counts `count` bytes of the file from `from` on, and gives the place after them; none for a count of 0.
pub fn put_copy(
    file: &[u8],
    from: usize,
    count: usize,
    wet: bool,
    out: &mut [u8],
    at: usize,
) -> usize
    requires count_in_bounds { from + count ≤ length file.now }
    requires room_from { RoomFrom wet (take count (drop from file.now)) at out.old }
    ensures { Emits wet (take count (drop from file.now)) out.old at out.new result }
{
    if wet {
        shared_output::copy_bytes(file, from, count, &mut out[at..]);
        return at + count;
    }
    at + count
}

// Puts or counts the four bytes of a number, and gives the place after them.
pub fn put_word(value: u32, wet: bool, out: &mut [u8], at: usize) -> usize
    requires { RoomFrom wet (bytes value []) at out.old }
    ensures { Emits wet (bytes value []) out.old at out.new result }
{
    if wet {
        wire::put_number(&mut out[at..], value);
        return at + 4;
    }
    at + 4
}

// Puts or counts the one to five groups of a number, and gives the place after them.
pub fn put_grouped(n: u32, wet: bool, out: &mut [u8], at: usize) -> usize
    requires { RoomFrom wet (groups n []) at out.old }
    ensures { Emits wet (groups n []) out.old at out.new result }
{
    if wet {
        return shared_seven_bit_groups::put_groups(n, out, at);
    }
    at + shared_seven_bit_groups::groups_of(n)
}
