// What a chunk changes in the totals of the piece judge: BB3D's fixed data, a node that begins, a chunk that is left. The definitions are those of
// b3d_pieces_spec.
#![tactic(auto)]

ghost use Rattle.std.specs.Prelude.{◌≡◌, ◌+◌, ◌≤◌};
ghost use Rattle.b3d_spec.specs.Rules.{bone_limit, bone_limit_from};
ghost use Rattle.b3d_pieces_spec.specs.Bodies.{above, saying, rows_with, file_with, headed as headedOf, entered, slots_for, rows_after, bone_limit_restored, closed};
ghost use Rattle.b3d_pieces_spec.specs.Good.{sum};
ghost use Rattle.b3d_pieces_spec.specs.Limits.{most_counted};

use b3d_chunk_cursor::same;
use b3d_pieces_spec::{Kept, Totals};
use b3d_spec::{Counts, Tag};

// Returns `g` with these `rows` of tables 3 to 10.
fn with_rows(g: Totals, rows: Counts) -> Totals
    ensures { result ≡ rows_with g rows }
{
    let mut x = g;
    x.rows = rows;
    x
}

// Returns `g` with this version, n_texs (`slots`), textures and brushes.
fn with_file(g: Totals, version: usize, slots: usize, textures: usize, brushes: usize) -> Totals
    ensures { result ≡ file_with g version slots textures brushes }
{
    let mut x = g;
    x.version = version;
    x.slots = slots;
    x.textures = textures;
    x.brushes = brushes;
    x
}

// Returns the bone limit that the present node hands down: its `own` vertices if it is the root or has an ANIM (`anim`), else the limit that it got.
fn bones_below(anim: bool, own: usize, g: Totals) -> usize
    ensures { result ≡ bone_limit (bone_limit_from (above g) anim own) }
{
    if anim {
        return own;
    }
    let rows = g.rows;
    if rows.nodes == 1 {
        return own;
    }
    g.told
}

// Returns `g` where the present node has `own` vertices and, if `anim` is set, an ANIM: with the bone limit that it hands down.
fn says(anim: bool, own: usize, g: Totals) -> Totals
    ensures { result ≡ saying anim own g }
{
    let below = bones_below(anim, own, g);
    let mut x = g;
    x.own = own;
    x.below = below;
    x
}

// Returns `g` after the fixed data `k` of a chunk of tag `tag`: BB3D's is the version.
pub fn headed(tag: Tag, k: Kept, g: Totals) -> Totals
    ensures { result ≡ headedOf tag k g }
{
    if same(tag, Tag::BB3D) {
        return with_file(g, k.first, g.slots, g.textures, g.brushes);
    }
    g
}

// Returns `g` where a node begins: one row more, and the bone limit that the node around it hands down.
pub fn node_begins(g: Totals) -> Totals
    requires { sum g + 1 ≤ most_counted }
    ensures { result ≡ entered g }
{
    let mut rows = g.rows;
    rows.nodes = rows.nodes + 1;
    let mut x = g;
    x.own = 0;
    x.told = g.below;
    x.rows = rows;
    says(false, 0, x)
}

// Returns n_texs of a file with this number of brushes: `slots`, or 0 if there is none.
fn slots_for(brushes: usize, slots: usize) -> usize
    ensures { result ≡ slots_for brushes slots }
{
    if brushes == 0 {
        return 0;
    }
    slots
}

// Returns the rows of tables 3 to 10 after a chunk of tag `tag` with `c` items.
fn rows_after(tag: Tag, c: usize, g: Totals) -> Counts
    requires { sum g + c ≤ most_counted }
    ensures { result ≡ rows_after tag c g.rows }
{
    let mut n = g.rows;
    match tag {
        Tag::MESH => {
            n.meshes = n.meshes + 1;
        }
        Tag::VRTS => {
            n.vertices = n.vertices + c;
        }
        Tag::TRIS => {
            n.sets = n.sets + 1;
            n.triangles = n.triangles + c;
        }
        Tag::BONE => {
            n.weights = n.weights + c;
        }
        Tag::KEYS => {
            n.lists = n.lists + 1;
            n.keys = n.keys + c;
        }
        Tag::BB3D => {}
        Tag::TEXS => {}
        Tag::BRUS => {}
        Tag::NODE => {}
        Tag::ANIM => {}
    }
    n
}

// Returns `g` after a NODE with the bone limit `told`: the node around it hands that limit down again.
fn bone_limit_restored(g: Totals, told: usize) -> Totals
    ensures { result ≡ bone_limit_restored g told }
{
    let mut x = g;
    x.below = told;
    x
}

// Returns the totals after a chunk of tag `tag` that had `c` items, the fixed data `k` and, as a NODE, the bone limit `told`.
pub fn leave(tag: Tag, c: usize, k: Kept, told: usize, g: Totals) -> Totals
    requires { sum g + c ≤ most_counted }
    ensures { result ≡ closed tag c k told g }
{
    let rows = rows_after(tag, c, g);
    let x = with_rows(g, rows);
    match tag {
        Tag::BB3D => g,
        Tag::TEXS => with_file(g, g.version, g.slots, c, g.brushes),
        Tag::BRUS => with_file(g, g.version, slots_for(c, k.first), g.textures, c),
        Tag::NODE => bone_limit_restored(g, told),
        Tag::MESH => x,
        Tag::VRTS => says(false, c, x),
        Tag::TRIS => x,
        Tag::BONE => x,
        Tag::KEYS => x,
        Tag::ANIM => says(true, g.own, g),
    }
}
