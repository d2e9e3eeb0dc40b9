#![tactic(auto)]

// What a whole file and a run of frames hold, in specs/, and what follows from it, in proofs/. There is no code.
