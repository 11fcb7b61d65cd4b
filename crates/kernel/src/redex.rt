// The parts of a λ that is applied, as numbers.

// The body of the λ, and the argument.
#[derive(Clone, Copy)]
pub struct Redex {
    pub body: u64,
    pub arg: u64,
}
