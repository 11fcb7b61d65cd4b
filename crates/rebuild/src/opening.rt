// A term for the bound variable of a λ that is taken away.
ghost use Rattle.std.specs.Prelude.{◌≡◌, length};
ghost use Rattle.std.proofs.Math.Option.{some};
ghost use Rattle.hol.specs.Syntax.{Tm, open_at};
ghost use Rattle.store.specs.Measures.{nodes_tm};
ghost use Rattle.rebuild_types.specs.Rebuilds.{Rebuilds};
ghost use Rattle.rebuild.specs.Instances.{Opens};
ghost use Rattle.rebuild.specs.Kept.{opens_kept};

use super::leaf::Leaf;
use super::rebuild;
use lent::NoRoom;
use store::Store;
use store::view::TermView;

// The term with this number for the variable of the λ at depth 0.
#[derive(Clone, Copy)]
pub struct Opening(u64);

impl<S: Store> Leaf<S> for Opening {
    ghost does = { λ l c F. Opens c l.0 F };

    ghost stays = { λ l c d F k o. opens_kept k o };

    fn leaf(&self, store: &mut S, _words: &mut [u64], t: u64, depth: u64) -> Result<u64, NoRoom> {
        match store.view_term(t) {
            Some(TermView::Bound(k)) if k == depth => Ok(self.0),
            _ => Ok(t),
        }
    }

    fn typ(&self, _store: &mut S, _words: &mut [u64], a: u64) -> Result<u64, NoRoom> {
        Ok(a)
    }
}

// The term `s` for the bound variable 0 of `t`.
pub fn open<S: Store>(store: &mut S, words: &mut [u64], s: u64, t: u64) -> Result<u64, NoRoom>
    requires term { (v : Tm) × ((S.state store.old).contents.term s ≡ some v) }
    requires stands { (u : Tm) × ((S.state store.old).contents.term t ≡ some u) }
    ensures { (v u : Tm) → (S.state store.old).contents.term s ≡ some v → (S.state store.old).contents.term t ≡ some u → Rebuilds (length words.old) (nodes_tm u) (nodes_tm (open_at 0 v u)) (S.state store.old) (S.state store.new) (λ d n. d.term n ≡ some (open_at 0 v u)) result }
{
    rebuild(store, &Opening(s), words, t, 0)
}
