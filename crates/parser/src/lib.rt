// Terms from a stream of tokens, into any store.
#![tactic(auto)]

mod brackets;
mod scope;
pub mod term;
pub mod turn;
