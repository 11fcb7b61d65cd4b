// The table of what was declared, the oldest first, four words for each declaration.
ghost use Rattle.std.specs.Prelude.{◌*◌, ◌≤◌, length};

mod add;
mod find;
mod lookup;

use crate::ground::Ground;

// A theory's declarations, `used` of them, and what is always there. They stand in words beside a count, and on no `lent::stack::Stack`:
// that says nothing of the words that are free, and here contracts promise that a refused declaration leaves all words as they are.
// A function that adds to a table takes it by `&mut`: the checker doesn't cover an `add` to one by value that isn't handed back.
#[derive(Drop)]
pub struct Decls<'a> {
    words: &'a mut [u64],
    used: usize,
    pub ground: Ground,
    ghost fits: { 4 * used ≤ length words.now },
}
