#![tactic(auto)]

// What 05 and 06 make of a drawing: laws stand in proofs/.
