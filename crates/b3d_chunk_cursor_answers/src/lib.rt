// The answers of cursors in 01's numbers: what `wire` and `b3d_chunk_cursor` answer, as the definitions by which files are read have it. No function.
