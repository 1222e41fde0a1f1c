// The list of two accepted files, put into a lent output from its start on, or only counted: version, n_texs and counts first, then table by table.
#![tactic(auto)]

ghost use Rattle.shared_put_or_count.specs.Emits.{RoomFrom, Emits};
ghost use Rattle.b3d_spec.specs.Tables.{tables};
ghost use Rattle.b3d_compare_files.specs.Files.{AcceptedFile, tables_bytes, files_bytes};

use b3d_spec::VERTEX_WIDTH;

// Puts or counts the entries of the ten tables of the accepted files `a` and `b` with the same twelve numbers `x`. Returns the place after them.
fn put_cells(a: &[u8], b: &[u8], x: [u32; 12], wet: bool, out: &mut [u8], at: usize) -> usize
    requires { AcceptedFile a.now x × AcceptedFile b.now x × RoomFrom wet (tables_bytes a.now b.now tables) at out.old }
    ensures { Emits wet (tables_bytes a.now b.now tables) out.old at out.new result }
{
    let mut next = at;
    for k in 1..11 {
        let mut p = [0u32; VERTEX_WIDTH];
        let mut q = [0u32; VERTEX_WIDTH];
        let i = wire::size(k) + 1;
        next = b3d_compare_tables::put_table(a, b, k, x[i], &mut p, &mut q, wet, out, next);
    }
    next
}

// Puts or counts the list of the accepted files `a` and `b` with the twelve numbers `x` and `y`, from the start of `out` on. Returns the place after it.
pub fn put_list(a: &[u8], b: &[u8], x: [u32; 12], y: [u32; 12], wet: bool, out: &mut [u8]) -> usize
    requires { AcceptedFile a.now x × AcceptedFile b.now y × RoomFrom wet (files_bytes a.now b.now x y) 0 out.old }
    ensures { Emits wet (files_bytes a.now b.now x y) out.old 0 out.new result }
{
    let n = b3d_compare_rows::put_twelve(a, b, x, y, wet, out, 0);
    if n != 0 {
        return n;
    }
    put_cells(a, b, x, wet, out, n)
}
