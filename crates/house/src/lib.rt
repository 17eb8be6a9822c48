// The house files (document 01, "House files"): what a refusal is, the table file and the record file.
#![tactic(auto)]

// Refusals, their numbers and what each carries.
pub mod refusal;
// What every house file begins with.
pub mod file;
// The table file.
pub mod table;
// The record file and its cases.
pub mod cases;
// A record that was read, and its cases one after the other.
pub mod record;
