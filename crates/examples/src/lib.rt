// The paper's worked examples: one list in specs/, one theorem over it in proofs/. There is no code.
#![tactic(auto)]
