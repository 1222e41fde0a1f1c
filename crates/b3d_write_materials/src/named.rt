// Rows that begin with a name: its place and its length in the bytes that hold the names.
ghost use Rattle.std.specs.Prelude.{◌+◌, ◌*◌, ◌<◌, ◌≤◌, length};
ghost use Rattle.shared_output.specs.Writing.{Room, Put};
ghost use Rattle.b3d_spec.specs.Rebuild.{cut};
ghost use Rattle.b3d_write_row_runs.specs.Lent.{each_row};
ghost use Rattle.b3d_write_materials.specs.Named.{NameThere, NamesThere, named_bytes, row_bytes};

use b3d_spec::columns;
use b3d_write_items::number;

// Writes the name of the row at word `row` of `t`, and `n` words from word `at` on, to the start of `out`. Returns the size.
pub fn put_named(names: &[u8], t: &[u32], row: usize, at: usize, n: usize, out: &mut [u8]) -> usize
    requires row_in_bounds { (row + 2 ≤ length t.now) × (at + n ≤ length t.now) }
    requires name_there { NameThere names.now t.now row }
    requires room { Room (named_bytes names.now t.now row at n) out.old }
    ensures { Put (named_bytes names.now t.now row at n) out.old out.new result }
{
    let place = number(t, row);
    let size = number(t, row + columns::NAME_LENGTH);
    let a = shared_output::put_text(names, place, size, out);
    let b = shared_output::put_words(t, at, n, &mut out[a..]);
    a + b
}

// Writes the first `n` rows of `t`, of `width` words: of each the name and the `m` words behind its two cells. Returns the size; 0 where `n` is 0.
pub fn put_rows(names: &[u8], t: &[u32], width: usize, m: usize, n: usize, out: &mut [u8]) -> usize
    requires m_bound { (m + 2 ≤ width) × (width < 4294967296) × (n * width ≤ length t.now) }
    requires names_there { NamesThere names.now (cut width n t.now) }
    requires room { Room (each_row (row_bytes names.now m) (cut width n t.now)) out.old }
    ensures { Put (each_row (row_bytes names.now m) (cut width n t.now)) out.old out.new result }
{
    let mut at: usize = 0;
    for i in 0..n {
        let row = i * width;
        let size = put_named(names, t, row, row + 2, m, &mut out[at..]);
        at += size;
    }
    at
}
