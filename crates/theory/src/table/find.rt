// Looking declarations up by their names, from the newest to the oldest.
ghost use Rattle.std.specs.Prelude.{◌≡◌, Bool};
ghost use Rattle.std.proofs.Math.Option.{some};
ghost use Rattle.hol.specs.Base.{Word};
ghost use Rattle.hol.specs.Theory.{Decl, Theory};
ghost use Rattle.store.specs.State.{Stays};
ghost use Rattle.signature.specs.Finds.{Finds};
ghost use Rattle.theory.specs.Knows.{Knows};
ghost use Rattle.theory.specs.Lookups.{Part, Picks, newest};

use super::Decls;
use crate::declaration::Declaration;
use store::Store;

impl Decls<'_> {
    // What `part` answers at the newest declaration of this name at which it answers something.
    pub(super) fn find<S: Store, X: Copy, F: Fn(Declaration) -> Option<X> + Copy>(
        &self,
        store: &mut S,
        name: u64,
        part: F,
    ) -> Option<X>
        requires { F.IsAlwaysCallable part }
        ensures stays { Stays (S.state store.old) (S.state store.new) }
        ensures found { (wanted : Decl → Bool) (th : Theory) (w : Word) → Picks (S.state store.old).contents (F.post part) wanted → Knows self.now (S.state store.old).contents th → (S.state store.old).contents.word name ≡ some w → Finds (Part (S.state store.old).contents (F.post part)) (newest wanted w th) result }
    {
        let mut rest = &self.words[..4 * self.used];
        while let [older @ .., code, word, first, second] = rest {
            let found = part(Declaration::from([*code, *word, *first, *second]));
            if found.is_some() && store.same_name(name, *word) {
                return found;
            }
            rest = older;
        }
        None
    }
}
