// What follows from the grammar of the kind that is told and of the joined events: definitions and theorems. No code.
#![tactic(auto)]
