// What differs between two files: the types of an answer and of a difference, the list as a definition in specs/, and its laws in proofs/. The code stands in
// crates above; no function here.

// What a word of a row is: a whole number, a float by its bits, a name's place, a name's length.
#[derive(Clone, Copy)]
pub enum WordKind {
    Whole,
    Float,
    Name,
    Length,
}

// A text by its place in a file and its length.
#[derive(Clone, Copy)]
pub struct Span {
    pub place: u32,
    pub length: u32,
}

// The two cells of a difference, the first file's first. Floats of which one is a NaN go by their bits, as whole numbers: an f32 does not keep a NaN's bits.
#[derive(Clone, Copy)]
pub enum Difference {
    Wholes(u32, u32),
    Floats(f32, f32),
    Texts(Span, Span),
}

// What a comparison answers: a refusal's number, its place and the file that it is of (1 or 2; 0 for the output), or 0, 0 and 0 with the size of the list. The
// list of two accepted files is shorter than 2^32 bytes (`Compares.most`).
#[repr(C)]
#[derive(Clone, Copy)]
pub struct Compared {
    pub number: u32,
    pub place: u32,
    pub which: u32,
    pub size: u32,
}
