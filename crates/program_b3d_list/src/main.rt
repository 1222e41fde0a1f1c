// The lister as a program: it prints what 01 says of a file on standard input. `b3d_list_output::list` has the promise; here are only input and output.
#![tactic(auto)]

ghost use Rattle.std.specs.Prelude.{◌≡◌, ◌+◌, length};
ghost use Rattle.b3d_list_spec.specs.Listing.{most_listed, most_printed};

use b3d_list_spec::MOST_PRINTED;
use std::io;

// Returns the buffer for the input: one byte more than the lister reads, so that a longer input is told from one of the limit.
fn room_in() -> [u8; 65537]
    ensures { most_listed + 1 ≡ length result }
{
    [0; 65537]
}

// Returns the buffer for the listing, with room for every listing.
fn room_out() -> [u8; MOST_PRINTED]
    ensures { most_printed ≡ length result }
{
    [0; MOST_PRINTED]
}

// Reads standard input and prints its listing. A read or a write that fails ends it with that error.
fn main(rt: HostRuntime) -> io::Result<()> {
    let mut file = room_in();
    let n = program_input::read_full(&mut rt.reader(), &mut file)?;
    let mut text = room_out();
    let size = b3d_list_output::list(&file[..n], &mut text);
    rt.write_all(&text[..size])
}
