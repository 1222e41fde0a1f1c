// All faults of a file in 01's order, up to the first that is not mended. The reader's refusal is the first of them, the mender's the first of
// another kind than the four, and the report's entries are of those that were mended. Definitions in specs/, laws in proofs/, no function.
