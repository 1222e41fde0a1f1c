// Rows of keys written as the keys of a KEYS, group by group, into a lent output.
#![tactic(auto)]

ghost use Rattle.std.specs.Prelude.{◌≡◌, map, ◌+◌, ◌*◌, ◌/◌, ◌<◌, ◌≤◌, length};
ghost use Rattle.layout.specs.Write.{write_words, write_items};
ghost use Rattle.shared_output.specs.Writing.{Room, Put};
ghost use Rattle.b3d_spec.specs.Mask.{present_words, key_mask};
ghost use Rattle.b3d_spec.specs.Tables.{key_width};
ghost use Rattle.b3d_rule_row_masks.specs.Runs.{Short, OfKey};
ghost use Rattle.b3d_write_row_runs.specs.Lent.{rows_from};
ghost use Rattle.b3d_write_row_runs.specs.RowBytes.{back_bytes, row_bytes};

use b3d_rule_row_masks::RowRuns;
use b3d_spec::KEY_WIDTH;

// Writes the scale and the rotation of a key, as the groups `g` have them, from word `base` on. Returns the size.
fn key_back(g: RowRuns, words: &[u32], base: usize, out: &mut [u8]) -> usize
    requires short { Short g × (g.wide ≡ 3) × (g.sets ≡ 1) × (base + 7 ≤ length words.now) }
    requires room { Room (back_bytes g words.now base) out.old }
    ensures { Put (back_bytes g words.now base) out.old out.new result }
{
    let n = b3d_write_row_runs::put_full(words, base, g.some, 3, out);
    let m = b3d_write_row_runs::put_full(words, base + 3, g.size, 4, &mut out[n..]);
    n + m
}

// Writes the key of the row from word `base` of `words` on, as the groups `g` have it. Returns the size.
fn put_key(g: RowRuns, words: &[u32], base: usize, out: &mut [u8]) -> usize
    requires short { Short g × OfKey g × (base + key_width ≤ length words.now) }
    requires room { Room (row_bytes g words.now base) out.old }
    ensures { Put (row_bytes g words.now base) out.old out.new result }
{
    let n = b3d_write_row_runs::put_front(1, g.three, words, base, out);
    let m = key_back(g, words, base + 1 + 3, &mut out[n..]);
    n + m
}

// Writes `count` keys from row `first` of `keys` on, by their `flags`, to the start of `out`. Returns the size; 0 where `count` is 0.
pub fn put_key_rows(flags: u32, keys: &[u32], first: usize, count: usize, out: &mut [u8]) -> usize
    requires count_in_bounds { first + count ≤ length keys.now / key_width }
    requires room { Room (write_items write_words (map (present_words (key_mask flags)) (rows_from key_width keys.now first count))) out.old }
    ensures { Put (write_items write_words (map (present_words (key_mask flags)) (rows_from key_width keys.now first count))) out.old
        out.new result }
{
    let g = b3d_rule_row_masks::key_runs(flags);
    let mut at: usize = 0;
    for i in 0..count {
        let n = put_key(g, keys, KEY_WIDTH * (first + i), &mut out[at..]);
        at += n;
    }
    at
}
