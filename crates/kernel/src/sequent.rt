// Sequents that were found. Their fields are private to this crate: nothing but the rules makes one.

// The list of assumptions and the conclusion, by their numbers.
pub struct Sequent {
    pub(crate) hyps: u64,
    pub(crate) concl: u64,
}
