// The table: lent words, of which the first four for each node are in use.
ghost use Rattle.std.specs.Prelude.{◌*◌, ◌≤◌, length};

mod access;
mod equal;
mod names;

// The number of the empty name and the empty lists.
pub const EMPTY: u64 = 0;

// The words of a node, and those with what is held back for comparing.
const NODE: usize = 4;

const SHARE: usize = 6;

// A node is four words, and two more are held back for comparing. Words and a count, and no stack, since what a mark above the count stood
// for is still known (`at` of a store's state), from words that a stack would no longer have.
#[derive(Drop)]
pub struct Nodes<'a> {
    words: &'a mut [u64],
    used: usize,
    ghost fits: { 6 * used ≤ length words.now },
}
