// Which type a term has in a theory, over any store: by loops over lent words.
#![tactic(auto)]

mod count;
pub mod form;
pub mod infer;
pub mod instance;
pub mod ok;
mod scope;
pub mod turn;
