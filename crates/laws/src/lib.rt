// Laws of the definition that only the proofs of code cite: from bytes to pages, and the CPU kept beside the record; and proofs of
// statements of the definition that no must-fail edit needs. They are in proofs/. No code stands here.

#![tactic(auto)]
