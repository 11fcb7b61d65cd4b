// The stack.
ghost use Rattle.std.specs.Prelude.{◌≤◌, length};

mod methods;

// A stack in words that are lent: the first `len` of them are on it, the last of these is the newest. While it lives nobody else has the
// words; its drop gives them back, with what was written.
//
// A function that needs words takes a slice of them and makes a stack in it. Whoever has a stack `s` calls such a function `f` above it
// with the words that are free, and what is on `s` stays. Behind a `&mut Stack` that is `f(&mut s.words[s.len..])`. Of a stack that is a
// variable of the function itself the checker doesn't cover this loan; there it is `s.above(&mut |free: &mut [u64]| f(free))`.
// Nor does it cover a method that changes a stack which a function takes by value and doesn't hand back: take it by `&mut`.
#[derive(Drop)]
pub struct Stack<'w> {
    pub words: &'w mut [u64],
    pub len: usize,
    ghost fits: { len ≤ length words.now },
}
