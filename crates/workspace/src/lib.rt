// What the rules call: terms, lists and types of any store, with the words that are lent divided as each call needs them, and why a rule
// finds nothing.
#![tactic(auto)]

pub mod build;
pub mod lists;
pub mod refusal;
pub mod terms;
pub mod types;
