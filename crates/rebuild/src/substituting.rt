// Terms for free variables, all at once.
ghost use Rattle.std.specs.Prelude.{◌≡◌, length};
ghost use Rattle.std.proofs.Math.Option.{some};
ghost use Rattle.hol.specs.Base.{Word};
ghost use Rattle.hol.specs.Syntax.{Ty, Tm, Subst, subst_tm};
ghost use Rattle.store.specs.Measures.{nodes_tm};
ghost use Rattle.store.specs.State.{Stays};
ghost use Rattle.rebuild_types.specs.Rebuilds.{Rebuilds};
ghost use Rattle.rebuild.specs.Instances.{Entries, Finds, Substitutes};
ghost use Rattle.rebuild.specs.Kept.{substitutes_kept};

use super::leaf::Leaf;
use super::rebuild;
use lent::NoRoom;
use names::variables::same_variable;
use store::Store;
use store::view::TermView;

// The term that the first of the entries for this variable has.
fn find<S: Store>(store: &mut S, entries: &[u64], x: u64, a: u64) -> Option<u64>
    ensures stays { Stays (S.state store.old) (S.state store.new) }
    ensures cases { (es : Subst) (w : Word) (b : Ty) → Entries (S.state store.old).contents entries.now es → (S.state store.old).contents.word x ≡ some w → (S.state store.old).contents.typ a ≡ some b → Finds (S.state store.old).contents es w b result }
{
    let mut rest = entries;
    while let [y, b, t, tail @ ..] = rest {
        if same_variable(store, x, a, *y, *b) {
            return Some(*t);
        }
        rest = tail;
    }
    None
}

// The entries' terms for their variables.
#[derive(Clone, Copy)]
pub struct Substituting<'e> {
    pub entries: &'e [u64],
}

impl<S: Store> Leaf<S> for Substituting<'_> {
    ghost does = { λ l c F. Substitutes c l.entries.now F };

    ghost stays = { λ l c d F k o. substitutes_kept k o };

    fn leaf(&self, store: &mut S, _words: &mut [u64], t: u64, _depth: u64) -> Result<u64, NoRoom> {
        match store.view_term(t) {
            Some(TermView::Free(x, a)) => Ok(find(store, self.entries, x, a).unwrap_or(t)),
            _ => Ok(t),
        }
    }

    fn typ(&self, _store: &mut S, _words: &mut [u64], a: u64) -> Result<u64, NoRoom> {
        Ok(a)
    }
}

// The entries' terms for their variables in `t`.
pub fn subst<S: Store>(
    store: &mut S,
    words: &mut [u64],
    entries: &[u64],
    t: u64,
) -> Result<u64, NoRoom>
    requires entries { (es : Subst) × Entries (S.state store.old).contents entries.now es }
    requires stands { (u : Tm) × ((S.state store.old).contents.term t ≡ some u) }
    ensures { (es : Subst) (u : Tm) → Entries (S.state store.old).contents entries.now es → (S.state store.old).contents.term t ≡ some u → Rebuilds (length words.old) (nodes_tm u) (nodes_tm (subst_tm es u)) (S.state store.old) (S.state store.new) (λ d n. d.term n ≡ some (subst_tm es u)) result }
{
    rebuild(store, &Substituting { entries }, words, t, 0)
}
