// The definitions of document 01 stand in specs/, their laws in proofs/. No code belongs to them.
#![tactic(auto)]
