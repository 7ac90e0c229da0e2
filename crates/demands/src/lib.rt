// The demands on the library as a whole, stated over what its crates promise: `specs/` has the
// statements and `proofs/` proves each. There is no code here.
#![tactic(auto)]
