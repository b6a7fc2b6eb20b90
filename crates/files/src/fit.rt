// A text in a buffer of any size: the numbers that decide. What they decide stands beside each text, in listing.rt and dump.rt.

// 01: a file has at most this many bytes.
pub const LONGEST: usize = 65536;

// 01, the number given back for a longer file, or for a buffer too short.
// Kept: a number, as what `rev_listing` and `rev_dump` answer, since a host in C is given a length or this (rev.h).
pub const TOO_LONG: usize = 8;
