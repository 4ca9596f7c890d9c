// Sets of tiles: only definitions and theorems, in specs/. There is no code.
#![tactic(auto)]
