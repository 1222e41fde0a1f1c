// Where the nesting table or the range of colours is broken in a file, and that refusals 4, 8 and the strict mode's 6 at a colour are given just there. No
// function.
