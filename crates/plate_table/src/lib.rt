// Document 01's plates as one table, and the theorem that it holds. Only definitions, in specs/, and the theorem, in proofs/. There is no code.
#![tactic(auto)]
