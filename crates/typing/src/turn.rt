// Where the loop that finds the type of a term stands.

// What comes next: go down into a term; go up with its type; or it is the type of the whole.
#[derive(Clone, Copy, Debug, PartialEq, Eq)]
pub enum Turn {
    Down(u64),
    Up(u64),
    End(u64),
}
