// A run with its state in hand: what that means (specs/), and that a unit with its tick is the definition's step (proofs/). No code
// stands here.
#![tactic(auto)]
