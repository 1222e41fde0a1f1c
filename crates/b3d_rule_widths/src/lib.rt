// How many words a vertex, a key or a triangle has in the file, and a number cut down to the most that it may be.
#![tactic(auto)]

ghost use Rattle.std.specs.Prelude.{◌≡◌, ◌≤◌};
ghost use Rattle.b3d_spec.specs.Mask.{ones, key_mask};
ghost use Rattle.b3d_spec.specs.Rules.{vertex_words, key_words, highest_vertex_flags, most_sets, largest_set};
ghost use Rattle.b3d_spec.specs.Tables.{vertex_width, key_width};
ghost use Rattle.b3d_rule_widths.specs.Widths.{Clipped, group_width};

// Returns `x`, or `most` where `x` is larger.
pub fn at_most(x: u32, most: u32) -> u32
    ensures { Clipped x most result }
{
    if x < most { x } else { most }
}

// Returns how many words a vertex of a VRTS with these flags, sets and set size has: 3 to 42.
pub fn vertex_words(flags: u32, sets: u32, size: u32) -> usize
    requires { (flags ≤ highest_vertex_flags) × (sets ≤ most_sets) × (size ≤ largest_set) }
    ensures { (result ≡ vertex_words flags sets size) × (3 ≤ result) × (result ≤ vertex_width) }
{
    wire::size(3 + flags / 1 % 2 * 3 + flags / 2 % 2 * 4 + sets * size)
}

// Returns how many words a key of a KEYS with these flags has: 1 to 11, whatever the flags are.
pub fn key_words(flags: u32) -> usize
    ensures { (result ≡ key_words flags) × (result ≡ ones (key_mask flags)) × (1 ≤ result) × (result ≤ key_width) }
{
    wire::size(1 + flags / 1 % 2 * 3 + flags / 2 % 2 * 3 + flags / 4 % 2 * 4)
}

// Returns how many words an item has: of a KEYS with these flags where `keys` is true, else of a TRIS, 3.
pub fn item_width(keys: bool, flags: u32) -> usize
    ensures { (result ≡ group_width keys flags) × (1 ≤ result) × (result ≤ key_width) }
{
    if keys {
        return key_words(flags);
    }
    3
}
