// Definitions of the copy without names from the bytes of a file: what each chunk becomes. Laws in proofs/ say that for an accepted file this is the copy
// that b3d_spec defines. No function: the code that writes it is in the b3d_clear crates.
