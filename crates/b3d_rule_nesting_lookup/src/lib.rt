// The nesting table read by tags: the row for the tag that encloses, and the entry in it.
#![tactic(auto)]

ghost use Rattle.std.specs.Prelude.{◌≡◌};
ghost use Rattle.b3d_spec.specs.Tags.{tag_number};
ghost use Rattle.b3d_rule_nesting_lookup.specs.Entries.{row_at, entry_of};

use b3d_rule_nesting_table::Entry;
use b3d_spec::Tag;

// Returns the table's row for the tag `enclosing`. Rows and numbers are picked by constants: where a caller names that tag, the compiler looks them up.
pub fn row_of(enclosing: Tag) -> [Entry; 10]
    ensures { result ≡ row_at (tag_number enclosing) }
{
    let table = b3d_rule_nesting_table::nesting_table();
    match enclosing {
        Tag::BB3D => table[0],
        Tag::TEXS => table[1],
        Tag::BRUS => table[2],
        Tag::NODE => table[3],
        Tag::MESH => table[4],
        Tag::VRTS => table[5],
        Tag::TRIS => table[6],
        Tag::BONE => table[7],
        Tag::KEYS => table[8],
        Tag::ANIM => table[9],
    }
}

// Returns the table's entry for `tag` inside a chunk of the tag `enclosing`.
pub fn entry_of(enclosing: Tag, tag: Tag) -> Entry
    ensures { result ≡ entry_of enclosing tag }
{
    let row = row_of(enclosing);
    match tag {
        Tag::BB3D => row[0],
        Tag::TEXS => row[1],
        Tag::BRUS => row[2],
        Tag::NODE => row[3],
        Tag::MESH => row[4],
        Tag::VRTS => row[5],
        Tag::TRIS => row[6],
        Tag::BONE => row[7],
        Tag::KEYS => row[8],
        Tag::ANIM => row[9],
    }
}
