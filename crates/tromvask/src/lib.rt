#![tactic(auto)]

// The C library: the functions of include/tromvask.h, each the one of its name in a library below, with the same contract.
pub mod decoding;
pub mod encoding;
pub mod files;
