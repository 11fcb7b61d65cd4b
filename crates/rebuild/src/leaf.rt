// What is done at the leaves of a term, and to the types of its λs, as the term is built anew.
ghost use Rattle.std.specs.Prelude.{◌≡◌, true, length};
ghost use Rattle.std.proofs.Math.Option.{some};
ghost use Rattle.hol.specs.Syntax.{Ty, Tm};
ghost use Rattle.store.specs.Measures.{nodes_ty, nodes_tm};
ghost use Rattle.store.specs.State.{Contents, Keeps};
ghost use Rattle.rebuild_types.specs.Rebuilds.{Rebuilds};
ghost use Rattle.rebuild.specs.Rebuilt.{Change, is_leaf};

use lent::NoRoom;
use store::Store;

pub trait Leaf<S: Store> {
    // Which change it is, where numbers stand for this.
    ghost does: { Self → Contents → Change → Type 0 };

    // What becomes of the leaf `t` under `depth` λs.
    fn leaf(&self, store: &mut S, words: &mut [u64], t: u64, depth: u64) -> Result<u64, NoRoom>
        requires does { (F : Change) × does self.now (S.state store.old).contents F }
        requires stands { (u : Tm) × ((S.state store.old).contents.term t ≡ some u) }
        ensures { (F : Change) (u : Tm) → does self.now (S.state store.old).contents F → (S.state store.old).contents.term t ≡ some u → is_leaf u ≡ true → Rebuilds (length words.old) (nodes_tm u) (nodes_tm (F.leaf depth u)) (S.state store.old) (S.state store.new) (λ d n. d.term n ≡ some (F.leaf depth u)) result };

    // What becomes of the type `a` of a λ. No body here, though three leaves give the type as it is: it would have to meet the clause for
    // every `does`.
    fn typ(&self, store: &mut S, words: &mut [u64], a: u64) -> Result<u64, NoRoom>
        requires does { (F : Change) × does self.now (S.state store.old).contents F }
        requires stands { (b : Ty) × ((S.state store.old).contents.typ a ≡ some b) }
        ensures { (F : Change) (b : Ty) → does self.now (S.state store.old).contents F → (S.state store.old).contents.typ a ≡ some b → Rebuilds (length words.old) (nodes_ty b) (nodes_ty (F.typ b)) (S.state store.old) (S.state store.new) (λ d n. d.typ n ≡ some (F.typ b)) result };

    ghost stays: { (l : Self) (c d : Contents) (F : Change) → Keeps c d → does l c F → does l d F };
}
