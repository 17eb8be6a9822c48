// The page to point at: demands 1, 2 and 3, each in one statement about the calls' own definitions, the paper's numbers, and the table of its
// examples, P1 to P10. It has no code.
#![tactic(auto)]
