// Pairs of numbers that are to be compared.

#[derive(Clone, Copy)]
pub struct Pair {
    pub a: u64,
    pub b: u64,
}

// What is left to compare of a pair: the second parts; or the first parts and the second parts.
#[derive(Clone, Copy)]
pub enum Rest {
    Second(Pair),
    Both(Pair, Pair),
}
