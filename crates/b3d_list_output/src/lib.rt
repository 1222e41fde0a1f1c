// The lister's text: what it prints for a file, as bytes in a lent slice.
#![tactic(auto)]

ghost use Rattle.b3d_list_text.specs.Puts.{Puts};
ghost use Rattle.b3d_list_spec.specs.Listing.{listing, Lists};

use b3d_list_spec::{MOST_LISTED, MOST_PRINTED};
use b3d_spec::Mode;

// Stores what the lister prints for `file` at the start of `out`, as far as there is room. Returns how many bytes were stored; the others stay as they were.
pub fn put_listing(file: &[u8], out: &mut [u8]) -> usize
    ensures { Puts (listing file.now) out.old 0 out.new result }
{
    if MOST_LISTED < file.len() {
        return b3d_list_lines::put_pair(1, 0, out, 0);
    }
    match b3d_judge::judge(Mode::Strict, file) {
        Err(e) => b3d_list_lines::put_pair(wire::size(e.number), e.place, out, 0),
        Ok(x) => {
            let t = x.tally;
            let next = b3d_list_output_parts::put_heads(x, out);
            b3d_list_output_parts::put_nodes(file, t.nodes, out, next)
        }
    }
}

// Stores all that the lister prints for `file` at the start of `out`, which has room for every listing. Returns how many bytes it has; the others stay as
// they were.
pub fn list(file: &[u8], out: &mut [u8; MOST_PRINTED]) -> usize
    ensures { Lists file.now out.old out.new result }
{
    b3d_judge::are_bytes(file);
    put_listing(file, out)
}
