// What vertices and keys share when their rows are written into an output: of each group of cells the words that are there, in a loop of a constant count.
// Vertices and keys have each their own functions down to the group, so that the compiler knows every count.
#![tactic(auto)]

ghost use Rattle.std.specs.Prelude.{[], ◌+◌, ◌≤◌, length, take, drop};
ghost use Rattle.layout.specs.Write.{write_words};
ghost use Rattle.shared_output.specs.Writing.{Room, Put};
ghost use Rattle.b3d_write_row_runs.specs.RowBytes.{front_bytes};

// Writes the `n` words of `words` from word `first` on. Returns the size. Most often `n` is 0 or `all`, which the compiler knows where this is called.
pub fn put_full(words: &[u32], first: usize, n: usize, all: usize, out: &mut [u8]) -> usize
    requires n_in_bounds { first + n ≤ length words.now }
    requires room { Room (write_words (take n (drop first words.now)) []) out.old }
    ensures { Put (write_words (take n (drop first words.now)) []) out.old out.new result }
{
    if n == 0 {
        return shared_output::put_words(words, first, 0, out);
    }
    if n == all {
        return shared_output::put_words(words, first, all, out);
    }
    shared_output::put_words(words, first, n, out)
}

// Writes the first two groups of the row from word `base` on: `head` words, `three` of the next three. Returns the size.
pub fn put_front(head: usize, three: usize, words: &[u32], base: usize, out: &mut [u8]) -> usize
    requires three_bound { (three ≤ 3) × (head ≤ 4) × (base + head + 3 ≤ length words.now) }
    requires room { Room (front_bytes head three words.now base) out.old }
    ensures { Put (front_bytes head three words.now base) out.old out.new result }
{
    let n = shared_output::put_words(words, base, head, out);
    let m = put_full(words, base + head, three, 3, &mut out[n..]);
    n + m
}
