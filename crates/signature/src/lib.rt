// What typing asks of a theory: how many arguments a type's name takes, and which type a constant has.
#![tactic(auto)]

ghost use Rattle.std.specs.Prelude.{◌≡◌};
ghost use Rattle.std.proofs.Math.Option.{some};
ghost use Rattle.hol.specs.Base.{Word};
ghost use Rattle.hol.specs.Theory.{Theory, type_arity, const_ty};
ghost use Rattle.store.specs.State.{Stays};
ghost use Rattle.signature.specs.Finds.{Finds};
ghost use Rattle.signature.specs.Meaning.{Meaning};

use store::Store;

pub trait Signature<S: Store> {
    // Which theory this is.
    ghost meaning: { Self → Meaning };

    // How many arguments the type of this name takes; None where there is no such type.
    fn arity(&self, store: &mut S, name: u64) -> Option<u64>
        requires theory { (th : Theory) × (meaning self.now).knows (S.Store.state store.old).contents th }
        requires word { (w : Word) × ((S.Store.state store.old).contents.word name ≡ some w) }
        ensures stays { Stays (S.Store.state store.old) (S.Store.state store.new) }
        ensures found { (th : Theory) (w : Word) → (meaning self.now).knows (S.Store.state store.old).contents th → (S.Store.state store.old).contents.word name ≡ some w → Finds (λ n k. k ≡ n) (type_arity th w) result };

    // The type of the constant of this name; None where there is no such constant.
    fn const_type(&self, store: &mut S, name: u64) -> Option<u64>
        requires theory { (th : Theory) × (meaning self.now).knows (S.Store.state store.old).contents th }
        requires word { (w : Word) × ((S.Store.state store.old).contents.word name ≡ some w) }
        ensures stays { Stays (S.Store.state store.old) (S.Store.state store.new) }
        ensures found { (th : Theory) (w : Word) → (meaning self.now).knows (S.Store.state store.old).contents th → (S.Store.state store.old).contents.word name ≡ some w → Finds (λ a k. (S.Store.state store.old).contents.typ k ≡ some a) (const_ty th w) result };
}
