// The row of open-chunk records as plain words, eleven to a record: reading and writing a record.
#![tactic(auto)]

ghost use Rattle.std.specs.Prelude.{◌≡◌, ◌+◌, ◌*◌, ◌≤◌, length};
ghost use Rattle.b3d_pieces_spec.specs.Row.{open_at, put_open, record_words};

use b3d_pieces_spec::{Kept, Open, RECORD_WORDS};
use b3d_pieces_state::records::{flag_of, tag_by, tag_number};

// Returns the open chunk of record `i` of `row`.
pub fn open_at(row: &[usize], i: usize) -> Open
    requires { i * record_words + record_words ≤ length row.now }
    ensures { result ≡ open_at row.now i }
{
    let p = i * RECORD_WORDS;
    let tag = tag_by(row[p]);
    let kept = Kept {
        first: row[p + 6],
        second: row[p + 7],
        third: row[p + 8],
    };
    Open {
        tag: tag,
        head: row[p + 1],
        end: row[p + 2],
        turn: row[p + 3],
        spent: row[p + 4] == 1,
        level: row[p + 5],
        kept: kept,
        count: row[p + 9],
        told: row[p + 10],
    }
}

// Writes the open chunk `f` as record `i` of `row`; the other records stay as they are.
pub fn put_open(row: &mut [usize], i: usize, f: Open)
    requires { i * record_words + record_words ≤ length row.old }
    ensures { row.new ≡ put_open row.old i f }
{
    let p = i * RECORD_WORDS;
    let tag = f.tag;
    let kept = f.kept;
    let spent = f.spent;
    let t = tag_number(tag);
    let s = flag_of(spent);
    row[p] = t;
    row[p + 1] = f.head;
    row[p + 2] = f.end;
    row[p + 3] = f.turn;
    row[p + 4] = s;
    row[p + 5] = f.level;
    row[p + 6] = kept.first;
    row[p + 7] = kept.second;
    row[p + 8] = kept.third;
    row[p + 9] = f.count;
    row[p + 10] = f.told;
}
