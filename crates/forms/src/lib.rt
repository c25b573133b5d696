// No code: the tokens that a pass over the commands writes, with the marks of `conversions`, are the token form of the condition.

#![tactic(auto)]
