// The ground that tiles cover, and the one settled list of each ground: only definitions and theorems, in specs/. There is no code.
#![tactic(auto)]
