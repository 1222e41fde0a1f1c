// Storing words in a lent table, for any format: given cells, one value again and again, words of the file as they stand. The other words of the table stay
// as found.
#![tactic(auto)]

ghost use Rattle.std.specs.Prelude.{◌≡◌, ◌+◌, ◌*◌, ◌<◌, ◌≤◌, length, replicate};
ghost use Rattle.std.proofs.lemmas.List.Edits.{sets as stored};
ghost use Rattle.wire.specs.Cursors.{Inside, left};
ghost use Rattle.layout.specs.Parts.{words_of};
ghost use Rattle.shared_table_words.specs.Words.{words_at};

use wire::Cursor;

// Returns `n` as a cell of a table.
pub fn cell(n: usize) -> u32
    requires { n < 0x100000000 }
    ensures { result ≡ n }
{
    n as u32
}

// Stores `cells` in `out` from word `base` on; no cell changes nothing.
pub fn put_cells(out: &mut [u32], base: usize, cells: &[u32])
    requires { base + length cells.now ≤ length out.old }
    ensures { out.new ≡ stored out.old base cells.now }
{
    for i in 0..cells.len() {
        out[base + i] = cells[i];
    }
}

// Stores the value `v` in `n` words of `out` from word `base` on.
pub fn put_same(v: u32, n: usize, base: usize, out: &mut [u32])
    requires { base + n ≤ length out.old }
    ensures { out.new ≡ stored out.old base (replicate n v) }
{
    for i in 0..n {
        out[base + i] = v;
    }
}

// Stores the `n` words of `file` at place `at` in `out` from word `base` on.
pub fn copy_run(file: &[u8], at: usize, n: usize, base: usize, out: &mut [u32])
    requires { (at + 4 * n ≤ length file.now) × (base + n ≤ length out.old) }
    ensures { out.new ≡ stored out.old base (words_at n file.now at) }
{
    for i in 0..n {
        out[base + i] = wire::number_at(file, at + 4 * i);
    }
}

// Stores the first `n` words of `file` that the cursor `c` has left in `out` from word `base` on.
pub fn copy_words(file: &[u8], c: Cursor, n: usize, base: usize, out: &mut [u32])
    requires { Inside c (length file.now) × (c.at + 4 * n ≤ c.end) × (base + n ≤ length out.old) }
    ensures { out.new ≡ stored out.old base (words_of n (left c file.now)) }
{
    copy_run(file, c.at, n, base, out);
}
