// Vectors: the file that holds them, and how what a program says is compared with what a vector expects.
#![tactic(auto)]

pub mod compare;
pub mod file;
