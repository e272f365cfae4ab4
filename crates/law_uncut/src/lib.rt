#![tactic(auto)]

// What 0E asks and makes of a sheet, by its case: definitions stand in specs/, laws in proofs/.
