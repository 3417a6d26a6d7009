// What every crate's promises share. No code.
#![tactic(auto)]
