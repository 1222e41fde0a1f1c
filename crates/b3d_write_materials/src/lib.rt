// The TEXS and the BRUS of a file, written from all rows of their tables; nothing where a table has no row.
#![tactic(auto)]

pub mod named;

ghost use Rattle.std.specs.Prelude.{◌+◌, ◌*◌, ◌/◌, ◌≤◌, length};
ghost use Rattle.shared_output.specs.Writing.{Room, Put};
ghost use Rattle.b3d_spec.specs.Rebuild.{cut};
ghost use Rattle.b3d_spec.specs.Tables.{texture_width, brush_width};
ghost use Rattle.b3d_spec.specs.Rules.{most_slots};
ghost use Rattle.b3d_write_row_runs.specs.Lent.{rows_in};
ghost use Rattle.b3d_write_materials.specs.Named.{NamesThere};
ghost use Rattle.b3d_write_materials.specs.Lists.{texs_bytes, brus_bytes, textures_bytes, brushes_bytes};

use b3d_spec::{BRUSH_WIDTH, TEXTURE_WIDTH, letters};
use named::put_rows;

// Writes a TEXS of the first `count` rows of `textures`, with names in `names`, to the start of `out`. Returns its size.
fn put_texs(names: &[u8], textures: &[u32], count: usize, out: &mut [u8]) -> usize
    requires texture_width_in_bounds { count * texture_width ≤ length textures.now }
    requires names_there { NamesThere names.now (cut texture_width count textures.now) }
    requires room { Room (texs_bytes names.now (cut texture_width count textures.now)) out.old }
    ensures { Put (texs_bytes names.now (cut texture_width count textures.now)) out.old out.new result }
{
    let n = put_rows(names, textures, TEXTURE_WIDTH, 7, count, &mut out[8..]);
    shared_output::put_header(out, letters::TEXS, n);
    n + 8
}

// Writes the TEXS of all rows of `textures` to the start of `out`. Returns its size; 0 where there is no row.
pub fn put_textures(names: &[u8], textures: &[u32], out: &mut [u8]) -> usize
    requires names_there { NamesThere names.now (rows_in texture_width textures.now) }
    requires room { Room (textures_bytes names.now (rows_in texture_width textures.now)) out.old }
    ensures { Put (textures_bytes names.now (rows_in texture_width textures.now)) out.old out.new result }
{
    let count = textures.len() / TEXTURE_WIDTH;
    if count == 0 {
        return 0;
    }
    put_texs(names, textures, count, out)
}

// Writes a BRUS of the first `count` rows of `brushes`, each with `slots` texture ids and its name in `names`, to the start of `out`. Returns its size.
fn put_brus(names: &[u8], slots: u32, brushes: &[u32], count: usize, out: &mut [u8]) -> usize
    requires slots_le_most_slots { (slots ≤ most_slots) × (count * brush_width ≤ length brushes.now) }
    requires names_there { NamesThere names.now (cut brush_width count brushes.now) }
    requires room { Room (brus_bytes names.now slots (cut brush_width count brushes.now)) out.old }
    ensures { Put (brus_bytes names.now slots (cut brush_width count brushes.now)) out.old out.new result }
{
    let many = 7 + slots as usize;
    let n = put_rows(names, brushes, BRUSH_WIDTH, many, count, &mut out[12..]);
    shared_output::put_opening(out, letters::BRUS, n, slots);
    n + 12
}

// Writes the BRUS of all rows of `brushes` to the start of `out`. Returns its size; 0 where there is no row.
pub fn put_brushes(names: &[u8], slots: u32, brushes: &[u32], out: &mut [u8]) -> usize
    requires slots_le_most_slots { slots ≤ most_slots }
    requires names_there { NamesThere names.now (rows_in brush_width brushes.now) }
    requires room { Room (brushes_bytes names.now slots (rows_in brush_width brushes.now)) out.old }
    ensures { Put (brushes_bytes names.now slots (rows_in brush_width brushes.now)) out.old out.new result }
{
    let count = brushes.len() / BRUSH_WIDTH;
    if count == 0 {
        return 0;
    }
    put_brus(names, slots, brushes, count, out)
}
