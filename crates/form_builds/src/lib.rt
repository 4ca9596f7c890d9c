// A line's answer is an answer of a build: the build of a form, in specs/, and the theorem, in proofs/. There is no code.
#![tactic(auto)]
