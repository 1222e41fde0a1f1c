// A number of a row against its rule, by the tag of its chunk and its index: 0, or the refusal that it gets.
ghost use Rattle.std.specs.Prelude.{◌≡◌, [], ◌∷◌};
ghost use Rattle.wire.specs.Bytes.{IsWord};
ghost use Rattle.layout.specs.Rules.{up_to, names, names_or_none, unit};
ghost use Rattle.b3d_spec.specs.Rules.{vertices_head, bone_limit};
ghost use Rattle.b3d_pieces_spec.specs.Bodies.{above};
ghost use Rattle.b3d_pieces_rules.specs.Faults.{fault_of, fault_in, slot_fault, fixed_fault, inner_fault, row_fault, IdsAre, VertexIs};

use b3d_pieces_spec::{Kept, Totals};
use b3d_rule_colour::colour_ok;
use b3d_spec::Tag;
use layout::refusals;

// The highest version, n_texs, VRTS flags, sets, set size and KEYS flags, as sizes.
const VERSION: usize = b3d_spec::HIGHEST_VERSION as usize;

const SLOTS: usize = b3d_spec::MOST_SLOTS as usize;

const VERTEX_FLAGS: usize = b3d_spec::HIGHEST_VERTEX_FLAGS as usize;

const SETS: usize = b3d_spec::MOST_SETS as usize;

const SET_SIZE: usize = b3d_spec::LARGEST_SET as usize;

const KEY_FLAGS: usize = b3d_spec::HIGHEST_KEY_FLAGS as usize;

// Returns 0 if `w` is at most `m`, else 6.
fn up_to(m: usize, w: usize) -> u32
    ensures { result ≡ fault_of (up_to m) w }
{
    if w <= m {
        return 0;
    }
    refusals::RANGE
}

// Returns 0 if the id `w` is below `n`, else 7.
fn name(n: usize, w: usize) -> u32
    ensures { result ≡ fault_of (names n) w }
{
    if w < n {
        return 0;
    }
    refusals::NO_SUCH_ID
}

// Returns 0 if the id `w` is below `n` or is -1 (0xFFFFFFFF), else 7.
pub fn name_or_none(n: usize, w: usize) -> u32
    ensures { result ≡ fault_of (names_or_none n) w }
{
    if w == 0xFFFFFFFF {
        return 0;
    }
    if w < n {
        return 0;
    }
    refusals::NO_SUCH_ID
}

// Returns the refusal of number `i`, which is `w`, of a row with one number that is at most `m`; else 0.
fn head_fault(m: usize, i: usize, w: usize) -> u32
    ensures { result ≡ fault_in (up_to m ∷ []) i w }
{
    if i == 0 {
        return up_to(m, w);
    }
    0
}

// Returns the refusal of number `i`, which is `w`, of a row with one brush id, where there are `n` brushes; else 0.
fn brush_fault(n: usize, i: usize, w: usize) -> u32
    ensures { result ≡ fault_in (names_or_none n ∷ []) i w }
{
    if i == 0 {
        return name_or_none(n, w);
    }
    0
}

// Returns the refusal of number `i`, which is `w`, of the fixed data of a VRTS: flags, sets, set size; else 0.
fn vertices_fault(i: usize, w: usize) -> u32
    ensures { result ≡ fault_in vertices_head i w }
{
    if i == 0 {
        return up_to(VERTEX_FLAGS, w);
    }
    if i == 1 {
        return up_to(SETS, w);
    }
    if i == 2 {
        return up_to(SET_SIZE, w);
    }
    0
}

// Returns the refusal of number `i`, which is `w`, of the fixed data of a chunk of tag `tag`; else 0.
fn fixed_fault(tag: Tag, g: Totals, i: usize, w: usize) -> u32
    ensures { result ≡ fixed_fault tag g i w }
{
    match tag {
        Tag::BB3D => head_fault(VERSION, i, w),
        Tag::BRUS => head_fault(SLOTS, i, w),
        Tag::MESH => brush_fault(g.brushes, i, w),
        Tag::VRTS => vertices_fault(i, w),
        Tag::TRIS => brush_fault(g.brushes, i, w),
        Tag::KEYS => head_fault(KEY_FLAGS, i, w),
        _ => 0,
    }
}

// Returns 0 if the bits `w` of a red, green, blue or alpha are a number from 0 to 1, minus zero among them; else 6.
pub fn colour(w: usize) -> u32
    requires { IsWord w }
    ensures { result ≡ fault_of unit w }
{
    let bits = w as u32;
    if colour_ok(bits) {
        return 0;
    }
    refusals::RANGE
}

// Returns the refusal of number `i`, which is `w`, of a brush: four colours, three other numbers, then `slots` texture ids, where there are `n` textures;
// else 0.
fn slot_fault(slots: usize, n: usize, i: usize, w: usize) -> u32
    requires { IsWord w }
    ensures { result ≡ slot_fault slots n i w }
{
    if i < 4 {
        return colour(w);
    }
    if i < 7 {
        return 0;
    }
    if i - 7 < slots {
        return name_or_none(n, w);
    }
    0
}

// Returns the refusal of number `i`, which is `w`, of a vertex with these `flags`: position and normal, four colours, the sets; else 0.
fn vertex_fault(flags: usize, i: usize, w: usize) -> u32
    requires { IsWord w }
    ensures { VertexIs flags i w result }
{
    let before = 3 + flags / 1 % 2 * 3;
    if i < before {
        return 0;
    }
    if i - before < flags / 2 % 2 * 4 {
        return colour(w);
    }
    0
}

// Returns the refusal of number `i`, which is `w`, of a row whose first `count` numbers are ids below `n`; else 0.
fn ids_fault(count: usize, n: usize, i: usize, w: usize) -> u32
    ensures { IdsAre count n i w result }
{
    if i < count {
        return name(n, w);
    }
    0
}

// Returns how many vertices a BONE of the present node may name: 0 for the root, else the node's bone limit.
pub fn bone_vertices(g: Totals) -> usize
    ensures { result ≡ bone_limit (above g) }
{
    let rows = g.rows;
    if rows.nodes == 1 {
        return 0;
    }
    g.told
}

// Returns the refusal of number `i`, which is `w`, of an item of a chunk of tag `tag` with the fixed data `k`, or of a header inside it; else 0.
fn inner_fault(tag: Tag, k: Kept, g: Totals, i: usize, w: usize) -> u32
    requires { IsWord w }
    ensures { result ≡ inner_fault tag k g i w }
{
    match tag {
        Tag::BRUS => slot_fault(k.first, g.textures, i, w),
        Tag::VRTS => vertex_fault(k.first, i, w),
        Tag::TRIS => ids_fault(3, g.own, i, w),
        Tag::BONE => ids_fault(1, bone_vertices(g), i, w),
        _ => 0,
    }
}

// Returns the refusal of number `i`, which is `w`, of a row: of fixed data if `fixed` is set, else of an item or a header; else 0.
pub fn row_fault(fixed: bool, tag: Tag, k: Kept, g: Totals, i: usize, w: usize) -> u32
    requires { IsWord w }
    ensures { result ≡ row_fault fixed tag k g i w }
{
    if fixed {
        return fixed_fault(tag, g, i, w);
    }
    inner_fault(tag, k, g, i, w)
}
