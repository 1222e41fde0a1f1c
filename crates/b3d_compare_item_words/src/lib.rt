// What differs between two items, word by word of both files with no row made, as entries that are put into a lent output from a place on, or only counted.
// Vertices, triangles, weights and keys are items; `columns` tells at which words of their rows the words of an item stand.
#![tactic(auto)]

ghost use Rattle.std.specs.Prelude.{◌≡◌, ◌+◌, ◌*◌, ◌≤◌, length};
ghost use Rattle.shared_table_words.specs.Words.{words_at};
ghost use Rattle.shared_put_or_count.specs.Emits.{RoomFrom, Emits};
ghost use Rattle.b3d_spec.specs.Mask.{vertex_has, key_has};
ghost use Rattle.b3d_compare_spec.specs.List.{list_bytes};
ghost use Rattle.b3d_compare_item_words.specs.ItemWords.{item_has, ItemColumns, item_float, item_entries};

// Returns whether word `w` of a vertex row is there, for a VRTS of these `flags`, `sets` and set `size`.
fn vertex_has(flags: u32, sets: u32, size: u32, w: u32) -> bool
    ensures { result ≡ vertex_has flags sets size w }
{
    if w < 3 {
        return true;
    }
    if w < 6 {
        return flags % 2 == 1;
    }
    if w < 10 {
        return flags / 2 % 2 == 1;
    }
    let c = w - 10;
    if sets <= c / 4 {
        return false;
    }
    c % 4 < size
}

// Returns whether word `w` of a key row is there, for a KEYS of these `flags`.
fn key_has(flags: u32, w: u32) -> bool
    ensures { result ≡ key_has flags w }
{
    if w < 1 {
        return true;
    }
    if w < 4 {
        return flags % 2 == 1;
    }
    if w < 7 {
        return flags / 2 % 2 == 1;
    }
    flags / 4 % 2 == 1
}

// Returns whether word `w` of an item's row of table `k` is there; of a table other than 5 and 10 each word is.
fn item_has(k: u32, flags: u32, sets: u32, size: u32, w: u32) -> bool
    ensures { result ≡ item_has k flags sets size w }
{
    if k == 5 {
        return vertex_has(flags, sets, size, w);
    }
    if k == 10 {
        return key_has(flags, w);
    }
    true
}

// Returns at which word of a row of table `k` each word of an item stands, one after the other; the rest of the 42 means nothing.
pub fn columns(k: u32, flags: u32, sets: u32, size: u32) -> [u32; 42]
    ensures { ItemColumns k flags sets size result }
{
    let mut out: [u32; 42] = [0; 42];
    let mut n: usize = 0;
    for w in 0..42 {
        if !item_has(k, flags, sets, size, w) {
            continue;
        }
        out[n] = w;
        n += 1;
    }
    out
}

// Returns whether word `w` of an item's row of table `k`, which is 5, 7, 8 or 10, is a float.
fn item_float(k: u32, w: u32) -> bool
    ensures { result ≡ item_float k w }
{
    if k == 5 {
        return true;
    }
    if k == 7 {
        return false;
    }
    1 <= w
}

// Puts or counts the entries of two items of `n` words, of `a` from byte `p` on and of `b` from byte `q` on, which are row `r` of table `k`; their words stand
// at the words `cols` of the row. Returns the place after them.
pub fn put_item_words(
    a: &[u8],
    b: &[u8],
    p: usize,
    q: usize,
    n: usize,
    cols: &[u32],
    k: u32,
    r: u32,
    wet: bool,
    out: &mut [u8],
    at: usize,
) -> usize
    requires { (p + 4 * n ≤ length a.now) × (q + 4 * n ≤ length b.now) × (n ≤ length cols.now)
        × RoomFrom wet (list_bytes (item_entries k r cols.now (words_at n a.now p) (words_at n b.now q))) at out.old }
    ensures { Emits wet (list_bytes (item_entries k r cols.now (words_at n a.now p) (words_at n b.now q)))
        out.old at out.new result }
{
    let mut next = at;
    for i in 0..n {
        let x = wire::number_at(a, p + 4 * i);
        let y = wire::number_at(b, q + 4 * i);
        let w = cols[i];
        let float = item_float(k, w);
        next = b3d_compare_rows::put_pair(a, b, k, r, w, float, x, y, wet, out, next);
    }
    next
}
