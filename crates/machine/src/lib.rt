// The machine of document 01 and its run: the state table, the table with one change, and the replay of a case.
// The layers above rest on what this crate says of a run. That the bytes of the cells are a table they ask of it too: files and session
// know no byte of a cell but by `first_bad`, and diagnosis knows none.
#![tactic(auto)]

// The head of a table: how many states, inputs and outputs.
pub mod head;
// The cells of a table as bytes, and what the completed machine does at one.
pub mod cell;
// A table that was tested, and the specified machine's moves on it.
pub mod table;
// Fault numbers, and the one change that a number makes.
pub mod fault;
// What a case must be to be run against a head.
pub mod case;
// The replay of a case, step by step.
pub mod replay;
