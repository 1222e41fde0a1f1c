// How many of a piece's next bytes the piece judge may take at once, by numbers alone: within the longest file, before a chunk's last byte, before a text's
// zero.
#![tactic(auto)]

ghost use Rattle.std.specs.Prelude.{◌≤◌, length};
ghost use Rattle.b3d_pieces_skip_lengths.specs.Ahead.{RoomIs, BytesBefore, UntilZero};

use b3d_pieces_item_steps::between::less;
use b3d_pieces_skip_numbers::numbers::lower;
use b3d_pieces_spec::MOST_COUNTED;

// Returns how many of the next `left` bytes may be taken at once after `size` bytes: 0 inside BB3D's header, none beyond byte 16,777,217.
pub fn room(size: usize, left: usize) -> usize
    ensures { RoomIs size left result }
{
    if size < 8 {
        return 0;
    }
    if MOST_COUNTED <= size {
        return 0;
    }
    lower(left, MOST_COUNTED - size)
}

// Returns how many of the `n` bytes from `at` on may be taken so that at least one byte before `end` is left; 0 if `end` is not past `at`.
pub fn before(at: usize, end: usize, n: usize) -> usize
    ensures { BytesBefore at end n result }
{
    let left = less(end, at);
    if left == 0 {
        return 0;
    }
    lower(n, left - 1)
}

// Returns the place of the first zero of `piece` from `from` on, or `last` if there is none before it.
pub fn until_zero(piece: &[u8], from: usize, last: usize) -> usize
    requires { (from ≤ last) × (last ≤ length piece.now) }
    ensures { UntilZero piece.now from last result }
{
    for at in from..last {
        if piece[at] == 0 {
            return at;
        }
    }
    last
}
