// Blocks whose translation is kept from one unit to the next: what that means (specs/), and its laws (proofs/). No code stands here.
#![tactic(auto)]
