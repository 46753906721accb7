// Chunks of a list: the definitions that contracts cite are in specs/, their laws in proofs/. There is no code.
#![tactic(auto)]
