// No code: the laws of a slice that is two slices, one behind the other. See proofs/.
#![tactic(auto)]
