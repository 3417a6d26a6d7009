// The side boxes of a file, and that a file that ends DONE tells every one of them, whole and closed: specs/. No code.
#![tactic(auto)]
