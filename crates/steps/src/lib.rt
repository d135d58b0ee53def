// Instructions on kept blocks: what their text and their operand come to (proofs/). No code stands here.
#![tactic(auto)]
