#![tactic(auto)]

// What the writer wrote is what the reader hears: theorems over the definitions of both sides.
