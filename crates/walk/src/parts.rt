// The parts of terms and types whose shape was recognised, as numbers.

// A function and its argument.
#[derive(Clone, Copy)]
pub struct Application {
    pub func: u64,
    pub arg: u64,
}

// The type of a λ's variable, and its body.
#[derive(Clone, Copy)]
pub struct Abstraction {
    pub ty: u64,
    pub body: u64,
}

// An equation: the type of its sides, and the sides.
#[derive(Clone, Copy)]
pub struct Equation {
    pub ty: u64,
    pub left: u64,
    pub right: u64,
}

// The two types of a function type.
#[derive(Clone, Copy)]
pub struct FunctionType {
    pub dom: u64,
    pub cod: u64,
}
