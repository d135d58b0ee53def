// Runs and desk calls that meet what machine's and desk's theorems assume, and a run that shows a premise of isolation to be needed,
// worked out in proofs/. Their statements are in machine's and desk's specs/, and no crate imports this one. No code stands here.

#![tactic(auto)]
