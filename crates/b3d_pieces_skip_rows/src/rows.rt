// Rows of numbers in a piece.
ghost use Rattle.std.specs.Prelude.{◌≤◌, length};
ghost use Rattle.b3d_pieces_skip_numbers.specs.Places.{Sound, Advanced};
ghost use Rattle.b3d_pieces_skip_rows.specs.Items.{WholeRows, Skips};

use b3d_pieces_item_steps::between::less;
use b3d_pieces_skip_numbers::numbers::{gather, last_byte, lower, numbers};
use b3d_pieces_skip_numbers::{RowPlace, RowRules};
use b3d_pieces_spec::NONE_KEPT;

// Returns how many rows of `n` numbers lie whole in `a` bytes and leave at least one more row in `b` bytes; 0 if `n` is 0.
fn whole_rows(a: usize, b: usize, n: usize) -> usize
    ensures { WholeRows a b n result }
{
    if n == 0 {
        return 0;
    }
    let there = b / 4 / n;
    if there == 0 {
        return 0;
    }
    lower(a / 4 / n, there - 1)
}

// Passes over the rows that lie whole before `last` and leave one more row in the chunk, if no number of them is judged and `x` is at a row's beginning. Else
// returns `x`.
fn free_rows(x: RowPlace, q: RowRules, last: usize) -> RowPlace
    requires { Sound last x }
    ensures { Skips last q x result }
{
    if x.i != 0 {
        return x;
    }
    if x.j != 0 {
        return x;
    }
    let judged = q.judged;
    if judged.first < judged.past {
        return x;
    }
    if q.again {
        let n = q.long;
        let from = x.from;
        let at = x.at;
        let left = less(q.end, at);
        let m = whole_rows(last - from, left, n);
        if m != 0 {
            let bytes = 4 * (m * n);
            return RowPlace {
                from: from + bytes,
                at: at + bytes,
                start: at + bytes,
                i: 0,
                j: 0,
                acc: 0,
                kept: NONE_KEPT,
                count: x.count + m,
            };
        }
    }
    x
}

// Takes the rest of a number that was begun, as far as it stands before `last`. Returns `x` if none was begun.
fn rest_of_number(x: RowPlace, q: RowRules, piece: &[u8], last: usize) -> RowPlace
    requires { Sound last x × (last ≤ length piece.now) }
    ensures { Advanced piece.now last q x result }
{
    if x.j == 0 {
        return x;
    }
    let y = gather(x, piece, last);
    last_byte(y, q, piece, last)
}

// Takes the rest of an item that was begun, as far as it stands before `last`.
fn rest_of_item(x: RowPlace, q: RowRules, piece: &[u8], last: usize) -> RowPlace
    requires { Sound last x × (last ≤ length piece.now) }
    ensures { Advanced piece.now last q x result }
{
    let y = rest_of_number(x, q, piece, last);
    if y.i == 0 {
        return y;
    }
    numbers(y, q, true, piece, last)
}

// Takes as much of a row and the rows after it as stands before `last`, up to a number that ends more than an item, or breaks its rule.
pub fn rows(x: RowPlace, q: RowRules, piece: &[u8], last: usize) -> RowPlace
    requires { Sound last x × (last ≤ length piece.now) }
    ensures { Advanced piece.now last q x result }
{
    let a = rest_of_item(x, q, piece, last);
    let b = free_rows(a, q, last);
    let c = numbers(b, q, false, piece, last);
    gather(c, piece, last)
}
