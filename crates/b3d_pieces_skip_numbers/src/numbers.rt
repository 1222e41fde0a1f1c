// Numbers of a row that stand whole in the piece, and the first bytes of one that does not. The places that these functions return are before the byte of
// `piece` at `last`, or at it.
ghost use Rattle.std.specs.Prelude.{◌≡◌, ◌+◌, ◌-◌, ◌<◌, ◌≤◌, length, get_or};
ghost use Rattle.wire.specs.Bytes.{IsWord};
ghost use Rattle.b3d_pieces_skip_numbers.specs.Places.{KeepsIs, Sound, Advanced, NumberReady, NumberIs, Gathered};

use crate::{JudgedNumbers, RowPlace, RowRules};
use b3d_pieces_byte_steps::bytes::gathered;
use b3d_pieces_byte_steps::rows::keep;
use b3d_pieces_item_steps::between::less;
use b3d_pieces_spec::NONE_KEPT;
use b3d_rule_colour::colour_ok;
use wire::{number_at, size};

// Returns whether `w` as number `i` of a row keeps its rule. May return false where the rule is kept: then the machine judges it.
fn keeps(q: JudgedNumbers, i: usize, w: usize) -> bool
    requires { IsWord w }
    ensures { KeepsIs q i w result }
{
    if i < q.first {
        return true;
    }
    if q.past <= i {
        return true;
    }
    if q.colour {
        let bits = w as u32;
        return colour_ok(bits);
    }
    w < q.names
}

// Returns the place after number `i` of `x`, which is `w`, before the byte at `next`, if it keeps its rule and the row goes on or another item of the chunk
// begins there. Else returns `x`.
fn after_number(x: RowPlace, w: usize, next: usize, q: RowRules) -> RowPlace
    requires { NumberReady x w }
    ensures { NumberIs x w next q result }
{
    let judged = q.judged;
    let i = x.i;
    if keeps(judged, i, w) {
        let at = x.at + 4;
        let mut y = x;
        y.from = next;
        y.at = at;
        y.j = 0;
        y.acc = 0;
        if i + 1 != q.long {
            let k = x.kept;
            let more = keep(i, w, k);
            y.i = i + 1;
            y.kept = more;
            return y;
        }
        if q.again {
            let left = less(q.end, at);
            if q.long <= left / 4 {
                let none = NONE_KEPT;
                y.start = at;
                y.i = 0;
                y.kept = none;
                y.count = x.count + 1;
                return y;
            }
        }
    }
    x
}

// Returns the byte of `piece` at `from`.
fn byte_at(piece: &[u8], from: usize) -> usize
    requires { from < length piece.now }
    ensures { (result ≡ get_or piece.now from 0) × (result < 256) }
{
    piece[from] as usize
}

// Takes the next number, which stands whole in `piece`. Returns `x` if a number was begun or this one is left to the machine.
fn number(x: RowPlace, q: RowRules, piece: &[u8], last: usize) -> RowPlace
    requires { Sound last x × (last ≤ length piece.now) × (4 ≤ last - x.from) }
    ensures { Advanced piece.now last q x result }
{
    if x.j != 0 {
        return x;
    }
    let from = x.from;
    let w = size(number_at(piece, from));
    after_number(x, w, from + 4, q)
}

// Takes the next numbers, as many as can be taken at once; up to the end of an item if `item` is set.
pub fn numbers(x: RowPlace, q: RowRules, item: bool, piece: &[u8], last: usize) -> RowPlace
    requires { Sound last x × (last ≤ length piece.now) }
    ensures { Advanced piece.now last q x result }
{
    let mut y = x;
    while 4 <= last - y.from {
        let from = y.from;
        y = number(y, q, piece, last);
        if y.from == from {
            return y;
        }
        if item {
            if y.i == 0 {
                return y;
            }
        }
    }
    y
}

// Takes the last byte of a number of which three came, if it stands before `last` and the number is not left to the machine. Else returns `x`.
pub fn last_byte(x: RowPlace, q: RowRules, piece: &[u8], last: usize) -> RowPlace
    requires { Sound last x × (last ≤ length piece.now) }
    ensures { Advanced piece.now last q x result }
{
    if x.j != 3 {
        return x;
    }
    let from = x.from;
    if last == from {
        return x;
    }
    let w = x.acc + 16777216 * byte_at(piece, from);
    after_number(x, w, from + 1, q)
}

// Returns `a` or `b`, whichever is not greater.
pub fn lower(a: usize, b: usize) -> usize
    ensures { (result ≤ a) × (result ≤ b) }
{
    if a < b {
        return a;
    }
    b
}

// Takes the next bytes of a number up to `last`, but not the number's last byte.
pub fn gather(x: RowPlace, piece: &[u8], last: usize) -> RowPlace
    requires { Sound last x × (last ≤ length piece.now) }
    ensures { Gathered piece.now last x result }
{
    let mut j = x.j;
    let mut acc = x.acc;
    let more = lower(last - x.from, 3 - j);
    let stop = x.from + more;
    for from in x.from..stop {
        acc = gathered(j, acc, piece[from]);
        j += 1;
    }
    let mut y = x;
    y.from = stop;
    y.j = j;
    y.acc = acc;
    y
}
