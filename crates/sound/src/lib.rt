#![tactic(auto)]

// Question 1 of a drawing in memory, and what its tests mean, stand in specs/ and proofs/.
