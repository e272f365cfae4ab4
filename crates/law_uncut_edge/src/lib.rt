#![tactic(auto)]

// What 0E at an edge makes of a drawing: definitions stand in specs/, laws in proofs/.
