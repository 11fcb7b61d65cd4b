// Where the loop that builds terms anew stands.
//
// On its stack are two words for each part that waits: what waits, and the number that it keeps. An application that waits for its
// function keeps its argument, which is to be done; one that waits for its argument keeps its function, which is done; a λ that waits
// for its body keeps its type, which is done.

// What comes next, under so many λs: go down into a term; go up with what was built; or it is the whole.
#[derive(Clone, Copy, Debug, PartialEq, Eq)]
pub enum Turn {
    Down(u64, u64),
    Up(u64, u64),
    End(u64),
}
