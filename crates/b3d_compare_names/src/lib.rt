// What differs between the names of two rows, as an entry that is put into a lent output from a place on, or only counted. Textures, brushes and nodes have a
// name: the first two words of their rows, its place and its length.
#![tactic(auto)]

ghost use Rattle.std.specs.Prelude.{◌<◌, ◌≤◌, length};
ghost use Rattle.shared_put_or_count.specs.Emits.{RoomFrom, Emits};
ghost use Rattle.b3d_compare_spec.specs.Words.{words_of};
ghost use Rattle.b3d_compare_spec.specs.Changes.{word_changes};
ghost use Rattle.b3d_compare_spec.specs.List.{list_bytes};
ghost use Rattle.b3d_compare_names.specs.NameEntries.{NamesAre};

use b3d_compare_spec::Difference;

// Returns the names of the row `x` of `a` and the row `y` of `b`, each of which begins with the place and the length of one, as two texts; `None` where they
// are the same.
fn row_names(a: &[u8], b: &[u8], x: &[u32], y: &[u32]) -> Option<Difference>
    requires in_bounds { 2 ≤ length x.now }
    requires in_bounds_2 { 2 ≤ length y.now }
    ensures { NamesAre a.now b.now x.now y.now result }
{
    let s = b3d_compare_difference::span_of(a, x[0], x[1]);
    let t = b3d_compare_difference::span_of(b, y[0], y[1]);
    if b3d_compare_difference::same_text(a, b, s, t) {
        return None;
    }
    Some(Difference::Texts(s, t))
}

// Puts or counts the entry of the names of the row `x` of `a` and the row `y` of `b`, row `r` of table `k`, none where they are the same. Returns the place
// after it.
pub fn put_name(
    a: &[u8],
    b: &[u8],
    x: &[u32],
    y: &[u32],
    k: usize,
    r: u32,
    wet: bool,
    out: &mut [u8],
    at: usize,
) -> usize
    requires k_nonzero { (0 < k) × (k < 4) }
    requires k_in_bounds { words_of k ≤ length x.now }
    requires k_in_bounds_2 { words_of k ≤ length y.now }
    requires room_from { RoomFrom wet (list_bytes (word_changes k a.now b.now r x.now y.now 0 2)) at out.old }
    ensures { Emits wet (list_bytes (word_changes k a.now b.now r x.now y.now 0 2)) out.old at
        out.new result }
{
    let Some(d) = row_names(a, b, x, y) else {
        return at;
    };
    b3d_compare_entries::put_entry(a, b, k as u32, r, 0, d, wet, out, at)
}
