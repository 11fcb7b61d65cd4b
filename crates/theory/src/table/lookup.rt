// What a theory says of a name.
ghost use Rattle.std.specs.Prelude.{◌≡◌};
ghost use Rattle.std.proofs.Math.Option.{some};
ghost use Rattle.hol.specs.Base.{Word};
ghost use Rattle.hol.specs.Theory.{Theory, known as known_seq};
ghost use Rattle.hol.specs.Kernel.{find_def};
ghost use Rattle.store.specs.State.{Stays};
ghost use Rattle.signature.specs.Finds.{Finds};
ghost use Rattle.theory.specs.Knows.{Knows};
ghost use Rattle.theory.specs.Kept.{theory_of};
ghost use Rattle.theory.specs.Lookups.{DefAt, SeqAt};

use super::Decls;
use crate::declaration::Declaration;
use names::is_named;
use signature::Signature;
use store::Store;

impl Decls<'_> {
    // The type and the body of the definition of this name.
    pub fn find_def<S: Store>(&self, store: &mut S, name: u64) -> Option<(u64, u64)>
        ensures stays { Stays (S.state store.old) (S.state store.new) }
        ensures found { (th : Theory) (w : Word) → Knows self.now (S.state store.old).contents th → (S.state store.old).contents.word name ≡ some w → Finds (DefAt (S.state store.old).contents) (find_def th w) result }
    {
        self.find(store, name, |declaration| match declaration {
            Declaration::Definition { ty, body, .. } => Some((ty, body)),
            _ => None,
        })
    }

    // The list of assumptions and the conclusion of the axiom or theorem of this name.
    pub fn known<S: Store>(&self, store: &mut S, name: u64) -> Option<(u64, u64)>
        ensures stays { Stays (S.state store.old) (S.state store.new) }
        ensures found { (th : Theory) (w : Word) → Knows self.now (S.state store.old).contents th → (S.state store.old).contents.word name ≡ some w → Finds (SeqAt (S.state store.old).contents) (known_seq th w) result }
    {
        let no_hyps = store.empty();
        self.find(store, name, |declaration| match declaration {
            Declaration::Axiom { concl, .. } => Some((no_hyps, concl)),
            Declaration::Theorem { hyps, concl, .. } => Some((hyps, concl)),
            _ => None,
        })
    }
}

impl<S: Store> Signature<S> for Decls<'_> {
    ghost meaning = { theory_of };

    fn arity(&self, store: &mut S, name: u64) -> Option<u64> {
        if is_named(store, name, b"bool") {
            return Some(0);
        }
        if is_named(store, name, b"->") {
            return Some(2);
        }
        self.find(store, name, |declaration| match declaration {
            Declaration::Type { .. } => Some(0),
            _ => None,
        })
    }

    fn const_type(&self, store: &mut S, name: u64) -> Option<u64> {
        if is_named(store, name, b"=") {
            return Some(self.ground.equality_type);
        }
        if is_named(store, name, b"@") {
            return Some(self.ground.choice_type);
        }
        self.find(store, name, |declaration| match declaration {
            Declaration::Constant { ty, .. } | Declaration::Definition { ty, .. } => Some(ty),
            _ => None,
        })
    }
}
