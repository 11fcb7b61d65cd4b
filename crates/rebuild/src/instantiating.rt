// Types for type variables in every type of a term, all at once.
ghost use Rattle.std.specs.Prelude.{◌≡◌, length};
ghost use Rattle.std.proofs.Math.Option.{some};
ghost use Rattle.hol.specs.Syntax.{Tm, TySubst, inst_tm};
ghost use Rattle.store.specs.Measures.{nodes_tm};
ghost use Rattle.rebuild_types.specs.Entries.{TyEntries};
ghost use Rattle.rebuild_types.specs.Rebuilds.{Rebuilds};
ghost use Rattle.rebuild.specs.Instances.{Instantiates};
ghost use Rattle.rebuild.specs.Kept.{instantiates_kept};

use super::leaf::Leaf;
use super::rebuild;
use lent::NoRoom;
use rebuild_types::{subst_type, subst_types};
use store::Store;
use store::view::TermView;

// The entries' types for their type variables.
#[derive(Clone, Copy)]
pub struct Instantiating<'e> {
    pub entries: &'e [u64],
}

impl<S: Store> Leaf<S> for Instantiating<'_> {
    ghost does = { λ l c F. Instantiates c l.entries.now F };

    ghost stays = { λ l c d F k o. instantiates_kept k o };

    fn leaf(&self, store: &mut S, words: &mut [u64], t: u64, _depth: u64) -> Result<u64, NoRoom> {
        match store.view_term(t) {
            Some(TermView::Free(x, a)) => {
                let b = subst_type(store, words, self.entries, a)?;
                store.free(x, b).ok_or(NoRoom)
            }
            Some(TermView::Constant(x, list)) => {
                let types = subst_types(store, words, self.entries, list)?;
                store.constant(x, types).ok_or(NoRoom)
            }
            _ => Ok(t),
        }
    }

    fn typ(&self, store: &mut S, words: &mut [u64], a: u64) -> Result<u64, NoRoom> {
        subst_type(store, words, self.entries, a)
    }
}

// The entries' types for their type variables in `t`.
pub fn inst<S: Store>(
    store: &mut S,
    words: &mut [u64],
    entries: &[u64],
    t: u64,
) -> Result<u64, NoRoom>
    requires entries { (es : TySubst) × TyEntries (S.state store.old).contents entries.now es }
    requires stands { (u : Tm) × ((S.state store.old).contents.term t ≡ some u) }
    ensures { (es : TySubst) (u : Tm) → TyEntries (S.state store.old).contents entries.now es → (S.state store.old).contents.term t ≡ some u → Rebuilds (length words.old) (nodes_tm u) (nodes_tm (inst_tm es u)) (S.state store.old) (S.state store.new) (λ d n. d.term n ≡ some (inst_tm es u)) result }
{
    rebuild(store, &Instantiating { entries }, words, t, 0)
}
