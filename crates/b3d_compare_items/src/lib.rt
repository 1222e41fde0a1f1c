// What differs between the items of two open chunks, all pairs of them in one loop with no row made, as entries that are put into a lent output from a place
// on, or only counted. Vertices, triangles, weights and keys are items; pairs that are the same have no entry.
#![tactic(auto)]

ghost use Rattle.std.specs.Prelude.{◌+◌};
ghost use Rattle.shared_put_or_count.specs.Emits.{RoomFrom};
ghost use Rattle.b3d_rows_open_items.specs.ItemsLeft.{item_rows};
ghost use Rattle.b3d_compare_spec.specs.Changes.{table_changes};
ghost use Rattle.b3d_compare_spec.specs.List.{list_bytes};
ghost use Rattle.b3d_compare_item_words.specs.ItemWords.{ItemColumns};
ghost use Rattle.b3d_compare_items.specs.Items.{ItemPairs, PutItems};

use b3d_rows_open_items::OpenItems;

// How many pairs of items were passed, how many bytes they take in each file, and the place in the output behind their entries.
#[derive(Clone, Copy)]
pub struct ItemsPut {
    pub rows: u32,
    pub bytes: usize,
    pub next: usize,
}

// Puts or counts the entries of all pairs of items of `i` in `a` and of `j` in `b`, the first of them row `r` of table `k`; the words of an item stand at the
// words `cols` of its row.
fn put_pairs(
    a: &[u8],
    b: &[u8],
    k: u32,
    r: u32,
    i: OpenItems,
    j: OpenItems,
    cols: &[u32],
    wet: bool,
    out: &mut [u8],
    at: usize,
) -> ItemsPut
    requires { ItemPairs k r a.now b.now i j × ItemColumns k i.flags i.sets i.size cols.now
        × RoomFrom wet (list_bytes (table_changes k a.now b.now r (item_rows k a.now i) (item_rows k b.now j))) at out.old }
    ensures { PutItems k r a.now b.now i j wet out.old at out.new result }
{
    let step = 4 * i.words;
    let mut p = i.rest.at;
    let mut q = j.rest.at;
    let mut row = r;
    let mut next = at;
    while step <= i.rest.end - p {
        if j.rest.end - q < step {
            return ItemsPut {
                rows: row - r,
                bytes: p - i.rest.at,
                next,
            };
        }
        next = b3d_compare_item_words::put_item_words(
            a, b, p, q, i.words, cols, k, row, wet, out, next,
        );
        p += step;
        q += step;
        row += 1;
    }
    ItemsPut {
        rows: row - r,
        bytes: p - i.rest.at,
        next,
    }
}

// Puts or counts the entries of the items of `i` in `a` and of `j` in `b`, which have the same shape, pair by pair up to the last of the file that has fewer;
// the first pair is row `r` of table `k`.
pub fn put_items(
    a: &[u8],
    b: &[u8],
    k: u32,
    r: u32,
    i: OpenItems,
    j: OpenItems,
    wet: bool,
    out: &mut [u8],
    at: usize,
) -> ItemsPut
    requires { ItemPairs k r a.now b.now i j
        × RoomFrom wet (list_bytes (table_changes k a.now b.now r (item_rows k a.now i) (item_rows k b.now j))) at out.old }
    ensures { PutItems k r a.now b.now i j wet out.old at out.new result }
{
    let cols = b3d_compare_item_words::columns(k, i.flags, i.sets, i.size);
    put_pairs(a, b, k, r, i, j, &cols, wet, out, at)
}
