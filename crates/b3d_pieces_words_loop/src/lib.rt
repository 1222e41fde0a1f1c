// The loop over the bytes of a piece, with a row of plain words. It makes a turn for each byte that is not taken at once with others, and for each chunk that
// is entered or left.
#![tactic(auto)]

ghost use Rattle.std.specs.Prelude.{◌/◌, length};
ghost use Rattle.b3d_pieces_spec.specs.Row.{open_at, record_words};
ghost use Rattle.b3d_pieces_judge_step.specs.Runs.{CanRun, RunIs};

use b3d_pieces_judge_step::Judge;
use b3d_pieces_judge_step::steps::{begin, step};
use b3d_pieces_skip::passing::pass;
use b3d_pieces_words_row::{open_at, put_open};

// Feeds all bytes of `piece` to the machine, with the chunks around the innermost in `row`, and returns what is held then. A piece of no bytes changes
// nothing.
pub fn run(j: Judge, row: &mut [usize], piece: &[u8]) -> Judge
    requires { CanRun j (length row.old / record_words) (open_at row.old) }
    ensures { RunIs j (open_at row.old) piece.now result (length row.new / record_words) (open_at row.new) }
{
    let mut t = pass(begin(j, piece.len()), piece);
    while t.at < t.end {
        let get = t.get;
        let at = t.at;
        let top = open_at(row, get);
        let s = step(t, top, piece[at]);
        let put = s.put;
        let rec = s.rec;
        put_open(row, put, rec);
        t = pass(s, piece);
    }
    t.judge
}
