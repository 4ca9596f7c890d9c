// Demand 3: builds, the plain account beside them, and the theorem. Only definitions, in specs/, and theorems, in proofs/. There is no code.
#![tactic(auto)]
