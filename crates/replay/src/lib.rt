// What the replay programs share. Each reads a list of calls with their answers from standard input, and makes the same calls of a
// proved crate: a line whose answer differs is printed.
#![tactic(auto)]

pub mod answers;
pub mod args;
pub mod calls;
pub mod entries;
pub mod parse;
