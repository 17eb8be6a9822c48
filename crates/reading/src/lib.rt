// The list and the audit of a session (document 01, "Symptoms, conflict sets, verdict", "Session memory").
#![tactic(auto)]

// The list and the verdict.
pub mod list;
// Whether every tally is true.
pub mod audit;
