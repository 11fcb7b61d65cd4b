// Which terms are left out where a list is put before another.

// An enum, and no closure: a closure would have to say what may be asked of it, and what it answers, in every store that keeps what this one does,
// and the one match over the four cases (`leaves_out`) is as short.
//
// A term is left out if it is in the list of a number; if it is the term of a number; if either holds; or if it is in the list so far.
#[derive(Clone, Copy)]
pub enum LeftOut {
    In(u64),
    Same(u64),
    SameOrIn(u64, u64),
    Repeated,
}
