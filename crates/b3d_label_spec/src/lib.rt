// The tray label (E7) as a definition: what a walk over a file's headers finds. The proofs show that on accepted files it is what the tables say. The crate
// has no function.

// The label: 0 and 0 with the name's place and length in the file and the vertices of the root's mesh; or 14 and zeros.
#[repr(C)]
#[derive(Clone, Copy)]
pub struct TrayLabel {
    pub number: u32,
    pub place: u32,
    pub name_place: usize,
    pub name_length: usize,
    pub vertices: usize,
}
