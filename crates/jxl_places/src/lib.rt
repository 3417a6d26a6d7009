// Where things stand in a file, by its bytes alone: when each event is given, and the header that each refusal names; no code.
#![tactic(auto)]
