// The table of nodes in lent words: names, types, terms and lists of them, by numbers. Number 0 stands for the empty name and the empty
// lists, node k has the number k + 1.
#![tactic(auto)]

pub mod kind;
pub mod node;
pub mod pair;
pub mod table;
