// Words that a caller lends, as a stack.
#![tactic(auto)]

pub mod stack;
#[cfg(test)]
mod tests;

// Too few words were lent.
#[derive(Clone, Copy, Debug, PartialEq, Eq)]
pub struct NoRoom;
