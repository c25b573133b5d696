// Cases of Check and Evaluate: the call is made at the unit's boundary, and what it gives back and leaves in its buffer is compared.
#![tactic(auto)]

pub mod check;
pub mod evaluate;
