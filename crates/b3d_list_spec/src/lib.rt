// Definition of what the lister prints for a file; laws on how long that is, and worked files. No function.

// The most bytes of input that the lister reads, as `Listing.most_listed` has it: each function that cites this is held to that.
pub const MOST_LISTED: usize = 65536;

// The most bytes that the lister prints, as `Listing.most_printed` has it.
pub const MOST_PRINTED: usize = 65678;
