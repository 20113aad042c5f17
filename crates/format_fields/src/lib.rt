// What all files share: the field format, its walks, and copies of bytes.
#![tactic(auto)]

pub mod bytes;
pub mod copy;
pub mod walk;
