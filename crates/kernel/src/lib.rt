// The rules, each a function from sequents to a sequent, over any store. The name of a rule is its word in a text.
#![tactic(auto)]

pub mod binding;
pub mod equality;
mod redex;
pub mod sequent;
