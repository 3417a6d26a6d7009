// The text of each refusal, and the theorems on the texts: specs/. No code: `jxl_refusal_text` puts a text into a buffer.
#![tactic(auto)]
