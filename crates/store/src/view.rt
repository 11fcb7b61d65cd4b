// How a number's name, type, list or term is made: from which other numbers.

// A name: empty, or a byte and the rest of the name.
#[derive(Clone, Copy, Debug, PartialEq, Eq)]
pub enum NameView {
    Empty,
    Byte(u8, u64),
}

// A type: a variable by its name; or a named type, by its name and the list of its arguments.
#[derive(Clone, Copy, Debug, PartialEq, Eq)]
pub enum TypeView {
    Variable(u64),
    Named(u64, u64),
}

// A term: a free variable by its name and type; a bound variable by its number; a constant by its name and the list of its types; an
// application of a function to an argument; a λ by its type and body.
#[derive(Clone, Copy, Debug, PartialEq, Eq)]
pub enum TermView {
    Free(u64, u64),
    Bound(u64),
    Constant(u64, u64),
    Apply(u64, u64),
    Lambda(u64, u64),
}

// A list of types or of terms: empty, or the first and the rest.
#[derive(Clone, Copy, Debug, PartialEq, Eq)]
pub enum ListView {
    Nil,
    Cons(u64, u64),
}
