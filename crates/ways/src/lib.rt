// Theorems over all calls stand in proofs/. No code belongs to them.
#![tactic(auto)]
