// Where the loop that reads terms stands, and how a bracket begins.

// What comes next: read a term; go up with one that was read; or it is the whole.
#[derive(Clone, Copy, Debug, PartialEq, Eq)]
pub enum Turn {
    Down,
    Up(u64),
    End(u64),
}

// The kind of a bracket, by its first word: (: x A), (! c A ..), ($ f x), (\ x A t).
#[derive(Clone, Copy, Debug, PartialEq, Eq)]
pub enum Form {
    Free,
    Constant,
    Application,
    Lambda,
}

// The variable of a λ: its name and its type.
#[derive(Clone, Copy, Debug, PartialEq, Eq)]
pub struct Binder {
    pub name: u64,
    pub ty: u64,
}

// What was read of a bracket: a whole term; that an application begins; or that a λ over this variable begins.
#[derive(Clone, Copy, Debug, PartialEq, Eq)]
pub enum Opened {
    Whole(u64),
    Function,
    Under(Binder),
}
