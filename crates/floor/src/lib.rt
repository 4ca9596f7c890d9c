// What `simplify` answers above a floor, its minimum zoom: only definitions, in specs/, and theorems, in proofs/. There is no code.
#![tactic(auto)]
