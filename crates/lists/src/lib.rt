// Laws on lists, for the proofs of the other crates. No code.

#![tactic(auto)]
