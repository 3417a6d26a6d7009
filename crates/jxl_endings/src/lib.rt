// The end call as a definition, what a file that is ended lists, and the theorems on both: specs/. No code; jxl_end has the call.
#![tactic(auto)]
