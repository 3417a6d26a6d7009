// The starred worked pieces of document 01: one table, one statement, in specs/. There is no code here.
#![tactic(auto)]
