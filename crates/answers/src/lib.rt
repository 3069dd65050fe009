// The three answers to the insurer, each one statement over the crates below. No code.

#![tactic(auto)]
