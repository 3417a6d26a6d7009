// Every file, every cut: what a file lists, where things stand in it, and the theorems on feeding it; no code.
#![tactic(auto)]
