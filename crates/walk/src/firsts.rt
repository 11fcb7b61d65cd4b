// The first type of a list, opened.
ghost use Rattle.std.specs.Prelude.{◌≡◌};
ghost use Rattle.std.proofs.Math.Option.{some};
ghost use Rattle.hol.specs.Syntax.{Tys};
ghost use Rattle.lent.specs.Piles.{pile_of, Pushes};
ghost use Rattle.walk.specs.Firsts.{FirstSays, behind};

use crate::look::{type_at, types_at};
use lent::NoRoom;
use lent::stack::Stack;
use store::Store;
use store::view::{ListView, TypeView};

// How the first type of the list is made, and the rest of the list; None if the list is empty.
pub fn first_type<S: Store>(store: &S, list: u64) -> Option<(TypeView, u64)>
    requires { (bs : Tys) × ((S.state store.now).contents.types list ≡ some bs) }
    ensures { (bs : Tys) → (S.state store.now).contents.types list ≡ some bs → FirstSays (S.state store.now).contents bs result }
{
    match types_at(store, list) {
        ListView::Nil => None,
        ListView::Cons(first, rest) => Some((type_at(store, first), rest)),
    }
}

// The arguments of the first type, newest, and the rest of the list.
pub fn push_behind(pending: &mut Stack<'_>, first: TypeView, rest: u64) -> Result<(), NoRoom>
    ensures cases { Pushes (behind first rest) (pile_of pending.old) (pile_of pending.new) result }
    ensures words_name { pending.new.words.ghost_name ≡ pending.old.words.ghost_name }
{
    match first {
        TypeView::Variable(_) => pending.push(rest),
        TypeView::Named(_, args) => pending.push_all(&[rest, args]),
    }
}
