// The calls that change a session (document 01, "Session memory"): start, add, amend, withdraw, load.
#![tactic(auto)]

pub mod calls;
