// How many nodes are below a node at all depths, counted along the flat run of a file's chunks: the branch word of 02's E4.
#![tactic(auto)]

ghost use Rattle.std.specs.Prelude.{◌≡◌, ◌<◌, ◌≤◌, length};
ghost use Rattle.b3d_spec_plain_rows.specs.Flat.{flat_at};
ghost use Rattle.b3d_spec_plain_rows.specs.Rows.{nodes_before};

use b3d_spec::Tag;

// Returns how many nodes are below the node whose own chunks begin at `from` and which ends at `end`: the NODEs from `from` on that begin before `end`.
pub fn nodes_before(file: &[u8], from: usize, end: usize) -> u32
    requires { (from ≤ length file.now) × (length file.now < 0x100000000) }
    ensures { result ≡ nodes_before end (flat_at file.now from) }
{
    let mut at = from;
    let mut count: u32 = 0;
    loop {
        let Some(chunk) = b3d_chunk_walk::flat_next(file, at) else {
            return count;
        };
        if b3d_chunk_cursor::same(chunk.tag, Tag::NODE) {
            if end <= chunk.at {
                return count;
            }
            count += 1;
        }
        at = chunk.next;
    }
}
