// The tallies of a session (document 01, "Fault numbers"): a case counted in, counted out, and whether it can be.
#![tactic(auto)]

pub mod tally;
