#![tactic(auto)]

// A run over a script, as the definitions have it: its turns, and how many are enough.
