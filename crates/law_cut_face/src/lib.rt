#![tactic(auto)]

// What 0B and 0D make of a sheet: definitions stand in specs/, laws in proofs/.
