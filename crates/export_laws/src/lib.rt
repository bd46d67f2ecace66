// Worked cases of the numbers and bytes that C and Rust see, and what reading them means, in specs/; that it is so, in proofs/. No code.
#![tactic(auto)]
