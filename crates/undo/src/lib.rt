// Undo is real: sequences of calls and their surviving rows in specs/, the theorem over them in proofs/. There is no code.
#![tactic(auto)]
