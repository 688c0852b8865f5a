// No code: definitions and laws that several crates cite.
#![tactic(auto)]
