// The rules on boxes: what one step tells, what a whole file lists, and that a step fed a file lists that: specs/. No code.
#![tactic(auto)]
