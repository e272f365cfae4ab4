#![tactic(auto)]

// What a drawing is where two cells go and one face gets other cycles: definitions stand in specs/, laws in proofs/.
