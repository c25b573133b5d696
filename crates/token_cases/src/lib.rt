// Cases of Write, Write Script and Decode: the call is made at the unit's boundary, and what it gives back and leaves in its buffers is compared.
#![tactic(auto)]

pub mod decode;
pub mod write;
pub mod write_script;
