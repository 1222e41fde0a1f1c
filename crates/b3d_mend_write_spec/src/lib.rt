// What edits of a file show: in the mended file its bytes, in the report its entries. A definition in specs/ and its laws in proofs/; no function here.
