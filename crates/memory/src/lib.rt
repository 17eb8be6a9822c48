// The session's memory (document 01, "Session memory"): bytes at fixed offsets in lent memory with the tallies beside it, what makes them
// well-formed, and a case stored and read back.
#![tactic(auto)]

// Where things stand in the session's bytes.
pub mod layout;
// Whether a session is well-formed.
pub mod form;
// A session that is: its table and its cases.
pub mod view;
// Whether a place holds a case.
pub mod slot;
// Cases stored and cleared.
pub mod store;
