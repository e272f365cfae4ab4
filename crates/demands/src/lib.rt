#![tactic(auto)]

// Demand 3 of the calls, for every kind of memory that a drawing is kept in, stands in specs/ and proofs/.
