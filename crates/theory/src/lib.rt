// The declarations of a theory, in words that the caller lends.
#![tactic(auto)]

pub mod declaration;
pub mod ground;
pub mod table;
#[cfg(test)]
mod tests;
