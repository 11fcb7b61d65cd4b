// Names of any store, compared with bytes, and free variables, compared with one another.
#![tactic(auto)]

ghost use Rattle.std.specs.Prelude.{◌≡◌, []};
ghost use Rattle.std.proofs.Math.Option.{some};
ghost use Rattle.hol.specs.Base.{Word, same_word};
ghost use Rattle.names.specs.Tails.{TailSays};

pub mod variables;

use store::Store;
use store::view::NameView;

// What follows the first byte of a name, if that is `byte`.
fn tail_after<S: Store>(store: &S, name: u64, byte: u8) -> Option<u64>
    ensures { (w : Word) → (S.state store.now).contents.word name ≡ some w → TailSays (S.state store.now).contents byte w result }
{
    match store.view_name(name) {
        Some(NameView::Byte(first, tail)) if first == byte => Some(tail),
        _ => None,
    }
}

// Whether a name has no bytes.
fn is_empty<S: Store>(store: &S, name: u64) -> bool
    ensures { (w : Word) → (S.state store.now).contents.word name ≡ some w → result ≡ same_word w [] }
{
    matches!(store.view_name(name), Some(NameView::Empty))
}

// Whether the name that a number stands for has these bytes.
pub fn is_named<S: Store>(store: &S, name: u64, bytes: &[u8]) -> bool
    ensures { (w : Word) → (S.state store.now).contents.word name ≡ some w → result ≡ same_word w bytes.now }
{
    let mut rest = name;
    for byte in bytes {
        match tail_after(store, rest, *byte) {
            Some(tail) => rest = tail,
            None => return false,
        }
    }
    is_empty(store, rest)
}
