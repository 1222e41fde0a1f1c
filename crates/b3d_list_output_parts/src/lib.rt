// Parts of what the lister prints for an accepted file: the first three lines, and the names of its nodes.
#![tactic(auto)]

ghost use Rattle.std.specs.Prelude.{◌≡◌, ◌≤◌, length};
ghost use Rattle.b3d_spec.specs.Answers.{judge};
ghost use Rattle.b3d_spec.specs.declared.Mode.TheVariants.{Strict};
ghost use Rattle.b3d_list_text.specs.Puts.{Puts};
ghost use Rattle.b3d_list_output_parts.specs.Parts.{head_lines, node_lines_of, Listable};

use b3d_judge_file_body::Summary;

// Stores the first three lines for an accepted file with summary `x` at the start of `out`. Returns the place of the next text.
pub fn put_heads(x: Summary, out: &mut [u8]) -> usize
    ensures { Puts (head_lines x) out.old 0 out.new result }
{
    let first = b3d_list_lines::put_pair(0, 0, out, 0);
    let second = b3d_list_lines::put_pair(wire::size(x.version), wire::size(x.n_texs), out, first);
    b3d_list_lines::put_counts(x.tally, out, second)
}

// Returns a table with room for the rows of 1337 nodes: a file of 65536 bytes has no more, for a NODE takes 49 bytes or more.
fn table() -> [u32; 28077]
    ensures { 28077 ≡ length result }
{
    [0; 28077]
}

// Stores the lines of the `nodes` nodes of an accepted `file` in `out` from `at` on. Returns the place of the next text.
pub fn put_nodes(file: &[u8], nodes: usize, out: &mut [u8], at: usize) -> usize
    requires { Listable file.now nodes × (at ≤ length out.old) }
    ensures { Puts (node_lines_of (judge Strict file.now)) out.old at out.new result }
{
    let mut space = table();
    let rows: &mut [u32] = &mut space;
    b3d_judge::are_bytes(file);
    b3d_read_node_table::store_nodes(file, rows);
    b3d_list_lines::put_names(file, rows, nodes, out, at)
}
