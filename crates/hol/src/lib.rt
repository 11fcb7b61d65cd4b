// Higher-order logic: its definitions (specs/) and the theorems about them, each the contract of a small function.

#![tactic(auto)]

pub mod theorems;
pub mod truth;

// Why a text is not accepted: brackets that do not match; the command, from 1, and its step, from 1, or 0 for the command itself;
// or too few words were lent.
#[derive(Clone, Copy, Debug, PartialEq, Eq)]
pub enum Fault {
    Broken,
    Refused(usize, usize),
    NoRoom,
}
