// No code: general rules for proofs that follow the MIR of a function by hand.

#![tactic(auto)]
