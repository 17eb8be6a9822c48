// What a session shows of its cases (document 01, "Symptoms, conflict sets, verdict", "Session memory").
#![tactic(auto)]

// The held cases as a record.
pub mod save;
// The symptoms and the conflict set of a case, and the candidates.
pub mod conflicts;
