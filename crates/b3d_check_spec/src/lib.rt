// Definitions of the writer's check of lent tables as code makes it: a walk over the rows, node by node (specs/). Laws in proofs/ say that its verdict is
// that of `rebuild`. The functions that make the check are in b3d_check. No function.
