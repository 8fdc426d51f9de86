//! What a script does, from its tree: definitions alone, no function.
#![tactic(auto)]
