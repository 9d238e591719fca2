//! Tests of whole runs and of the program's parts, over what libraries make public.
//!
//! They are a crate beside `tests`, so that the proofs of both run beside each other.
#![tactic(auto)]

#[cfg(test)]
mod runs;
