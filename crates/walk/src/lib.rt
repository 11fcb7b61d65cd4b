// What reads types and terms of any store. Each function gives what the definition of the same name gives of what the numbers stand for.
#![tactic(auto)]

pub mod firsts;
pub mod free;
pub mod listed;
pub mod look;
pub mod parts;
pub mod shapes;
mod subterms;
pub mod tyvars;
