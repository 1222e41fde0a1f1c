// Places inside a chunk: its body, and the chunks that a cursor has left there by how far the nesting rule has come. No function. Definitions and laws that
// the judge, the clearer and the rows of a file share: tests that are computed over the ten tags; what the chunks of a file, a NODE and a MESH that were read
// are, one after the other, for the clearer, the rows and the label.
#![tactic(auto)]
