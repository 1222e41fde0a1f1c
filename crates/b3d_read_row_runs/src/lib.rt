// Stores the groups of cells that rows of vertices and keys are made of: some words of the file, then zeros, each with a constant count.
#![tactic(auto)]

ghost use Rattle.std.specs.Prelude.{◌≡◌, ◌+◌, ◌-◌, ◌*◌, ◌≤◌, length};
ghost use Rattle.std.proofs.lemmas.List.Edits.{sets as stored};
ghost use Rattle.b3d_read_row_runs.specs.Pieces.{piece_at};

// Stores the `n` words of `file` from byte `at` on in `out` from cell `base` on, then `m` zeros. The other cells stay as they were.
pub fn put_piece(file: &[u8], at: usize, n: usize, m: usize, base: usize, out: &mut [u32])
    requires { (at + 4 * n ≤ length file.now) × (base + n + m ≤ length out.old) }
    ensures { out.new ≡ stored out.old base (piece_at n m file.now at) }
{
    shared_table_words::copy_run(file, at, n, base, out);
    shared_table_words::put_same(0, m, base + n, out);
}

// Stores four cells of `out` from cell `base` on: the `n` words of `file` from byte `at` on, then zeros.
pub fn put_four(file: &[u8], at: usize, n: usize, base: usize, out: &mut [u32])
    requires { (at + 4 * n ≤ length file.now) × (n ≤ 4) × (base + 4 ≤ length out.old) }
    ensures { out.new ≡ stored out.old base (piece_at n (4 - n) file.now at) }
{
    match n {
        0 => put_piece(file, at, 0, 4, base, out),
        1 => put_piece(file, at, 1, 3, base, out),
        2 => put_piece(file, at, 2, 2, base, out),
        3 => put_piece(file, at, 3, 1, base, out),
        _ => put_piece(file, at, 4, 0, base, out),
    }
}

// Stores three cells of `out` from cell `base` on: the `n` words of `file` from byte `at` on, then zeros.
pub fn put_three(file: &[u8], at: usize, n: usize, base: usize, out: &mut [u32])
    requires { (at + 4 * n ≤ length file.now) × (n ≤ 3) × (base + 3 ≤ length out.old) }
    ensures { out.new ≡ stored out.old base (piece_at n (3 - n) file.now at) }
{
    match n {
        0 => put_piece(file, at, 0, 3, base, out),
        1 => put_piece(file, at, 1, 2, base, out),
        2 => put_piece(file, at, 2, 1, base, out),
        _ => put_piece(file, at, 3, 0, base, out),
    }
}
