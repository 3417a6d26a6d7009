// A stream listed read after read, and ended, lists what its file does: specs/. No code; jxl_stream reads and writes.
#![tactic(auto)]
