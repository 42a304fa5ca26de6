// The definitions of numbers under a mask, in specs/, and their laws, in proofs/. The code stands in masked.
#![tactic(auto)]
