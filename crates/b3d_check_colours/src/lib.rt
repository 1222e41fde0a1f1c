// Whether the colours of lent brushes and vertices are from 0 to 1, as far as a mode looks at them.
#![tactic(auto)]

ghost use Rattle.std.specs.Prelude.{◌≡◌, ◌+◌, ◌*◌, ◌≤◌, length};
ghost use Rattle.layout.specs.WellFormed.{all};
ghost use Rattle.b3d_spec.specs.Colours.{coloured};
ghost use Rattle.b3d_spec.specs.Tables.{brush_width, vertex_width};
ghost use Rattle.b3d_check_rows.specs.Rows.{row_at, rows_at};
ghost use Rattle.b3d_check_colours.specs.LentColours.{colours_part};

use b3d_spec::{BRUSH_WIDTH, Mode, VERTEX_WIDTH, columns};

// Returns whether the four words of row `i` of `t` from word `word` of the row on are colours from 0 to 1; a row has `width` words.
fn row_coloured(t: &[u32], width: usize, word: usize, i: usize) -> bool
    requires { (word + 4 ≤ width) × (width * i + width ≤ length t.now) }
    ensures { result ≡ coloured word (row_at width i t.now) }
{
    let o = width * i + word;
    let red = b3d_rule_colour::colour_ok(t[o]);
    let green = b3d_rule_colour::colour_ok(t[o + 1]);
    let blue = b3d_rule_colour::colour_ok(t[o + 2]);
    let alpha = b3d_rule_colour::colour_ok(t[o + 3]);
    red & (green & (blue & alpha))
}

// Returns whether in each of the first `count` rows of `t` the four words from word `word` on are colours from 0 to 1; a row has `width` words.
fn rows_coloured(t: &[u32], width: usize, word: usize, count: usize) -> bool
    requires { (word + 4 ≤ width) × (width * count ≤ length t.now) }
    ensures { result ≡ all (coloured word) (rows_at width 0 count t.now) }
{
    for i in 0..count {
        if !row_coloured(t, width, word, i) {
            return false;
        }
    }
    true
}

// Returns whether `mode` accepts the colours of the first `brushes` rows of `t2` and the first `vertices` rows of `t5`; the lenient mode always does.
pub fn colours_valid(mode: Mode, brushes: usize, t2: &[u32], vertices: usize, t5: &[u32]) -> bool
    requires { (brush_width * brushes ≤ length t2.now) × (vertex_width * vertices ≤ length t5.now) }
    ensures { result ≡ colours_part mode brushes t2.now vertices t5.now }
{
    match mode {
        Mode::Lenient => true,
        Mode::Strict => {
            if !rows_coloured(t2, BRUSH_WIDTH, columns::BRUSH_COLOUR, brushes) {
                return false;
            }
            rows_coloured(t5, VERTEX_WIDTH, columns::VERTEX_COLOUR, vertices)
        }
    }
}
