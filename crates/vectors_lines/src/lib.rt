// What `vectors`, `vectors_keys` and `plates` share: how an answer is printed, and a line for each example, which says what its source
// says and what the library gives.
#![tactic(auto)]

pub mod shown;
pub mod tally;
