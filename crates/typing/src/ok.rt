// Types whose names are all declared, each with as many arguments as it takes.
ghost use Rattle.std.specs.Prelude.{◌≡◌, ◌+◌, ◌<◌, false, length, nat_eq, Some};
ghost use Rattle.std.proofs.Math.Option.{some};
ghost use Rattle.hol.specs.Base.{Word, option};
ghost use Rattle.hol.specs.Syntax.{Ty, Tys, count_tys};
ghost use Rattle.hol.specs.Theory.{Theory, type_arity, ok_ty, ok_tys};
ghost use Rattle.store.specs.Measures.{nodes_ty, nodes_tys};
ghost use Rattle.store.specs.State.{Stays};
ghost use Rattle.store.specs.Views.{TypeSays};
ghost use Rattle.lent.specs.Answers.{Answers};
ghost use Rattle.typing.specs.Heads.{head_ok};

use crate::count::has_count;
use lent::NoRoom;
use lent::stack::Stack;
use signature::Signature;
use store::Store;
use store::view::TypeView;
use walk::firsts::{first_type, push_behind};
use walk::look::type_at;

// Whether a type's name is declared and takes as many arguments as these.
fn takes<S: Store, T: Signature<S>>(store: &mut S, theory: &T, name: u64, args: u64) -> bool
    requires theory { (th : Theory) × (T.Signature.meaning theory.now).knows (S.Store.state store.old).contents th }
    requires word { (w : Word) × ((S.Store.state store.old).contents.word name ≡ some w) }
    requires types { (bs : Tys) × ((S.Store.state store.old).contents.types args ≡ some bs) }
    ensures stays { Stays (S.Store.state store.old) (S.Store.state store.new) }
    ensures takes { (th : Theory) (w : Word) (bs : Tys) → (T.Signature.meaning theory.now).knows (S.Store.state store.old).contents th → (S.Store.state store.old).contents.word name ≡ some w → (S.Store.state store.old).contents.types args ≡ some bs → result ≡ option (type_arity th w) false (nat_eq (count_tys bs)) }
{
    match theory.arity(store, name) {
        Some(arity) => has_count(store, args, arity),
        None => false,
    }
}

// Whether a type, made like this, is a variable or has as many arguments as its name takes.
fn head_ok<S: Store, T: Signature<S>>(store: &mut S, theory: &T, view: TypeView) -> bool
    requires theory { (th : Theory) × (T.Signature.meaning theory.now).knows (S.Store.state store.old).contents th }
    requires view { (a : Ty) × TypeSays (S.Store.state store.old).contents a (Some view) }
    ensures stays { Stays (S.Store.state store.old) (S.Store.state store.new) }
    ensures tells { (th : Theory) → (T.Signature.meaning theory.now).knows (S.Store.state store.old).contents th → (a : Ty) → TypeSays (S.Store.state store.old).contents a (Some view) → result ≡ head_ok th a }
{
    match view {
        TypeView::Variable(_) => true,
        TypeView::Named(name, args) => takes(store, theory, name, args),
    }
}

// Whether all types of a list are ok.
pub fn ok_types<S: Store, T: Signature<S>>(
    store: &mut S,
    theory: &T,
    words: &mut [u64],
    list: u64,
) -> Result<bool, NoRoom>
    requires theory { (th : Theory) × (T.Signature.meaning theory.now).knows (S.Store.state store.old).contents th }
    requires stands { (bs : Tys) × ((S.Store.state store.old).contents.types list ≡ some bs) }
    ensures stays { Stays (S.Store.state store.old) (S.Store.state store.new) }
    ensures cases { (th : Theory) (bs : Tys) → (T.Signature.meaning theory.now).knows (S.Store.state store.old).contents th → (S.Store.state store.old).contents.types list ≡ some bs → Answers (length words.old < 1 + nodes_tys bs) (λ b. b ≡ ok_tys th bs) result }
{
    let mut pending = Stack::new(words);
    pending.push(list)?;
    while let Some(next) = pending.pop() {
        let Some((first, rest)) = first_type(store, next) else {
            continue;
        };
        if !head_ok(store, theory, first) {
            return Ok(false);
        }
        push_behind(&mut pending, first, rest)?;
    }
    Ok(true)
}

// Whether a type is ok.
pub fn ok_type<S: Store, T: Signature<S>>(
    store: &mut S,
    theory: &T,
    words: &mut [u64],
    a: u64,
) -> Result<bool, NoRoom>
    requires theory { (th : Theory) × (T.Signature.meaning theory.now).knows (S.Store.state store.old).contents th }
    requires stands { (b : Ty) × ((S.Store.state store.old).contents.typ a ≡ some b) }
    ensures stays { Stays (S.Store.state store.old) (S.Store.state store.new) }
    ensures cases { (th : Theory) (b : Ty) → (T.Signature.meaning theory.now).knows (S.Store.state store.old).contents th → (S.Store.state store.old).contents.typ a ≡ some b → Answers (length words.old < nodes_ty b) (λ o. o ≡ ok_ty th b) result }
{
    match type_at(store, a) {
        TypeView::Variable(_) => Ok(true),
        TypeView::Named(name, args) => {
            Ok(takes(store, theory, name, args) && ok_types(store, theory, words, args)?)
        }
    }
}
