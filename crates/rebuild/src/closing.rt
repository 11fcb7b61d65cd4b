// A bound variable for a free one.
ghost use Rattle.std.specs.Prelude.{◌≡◌, length};
ghost use Rattle.std.proofs.Math.Option.{some};
ghost use Rattle.hol.specs.Base.{Word};
ghost use Rattle.hol.specs.Syntax.{Ty, Tm, close_at};
ghost use Rattle.store.specs.Measures.{nodes_tm};
ghost use Rattle.rebuild_types.specs.Rebuilds.{Rebuilds};
ghost use Rattle.rebuild.specs.Instances.{Closes};
ghost use Rattle.rebuild.specs.Kept.{closes_kept};

use super::leaf::Leaf;
use super::rebuild;
use lent::NoRoom;
use names::variables::same_variable;
use store::Store;
use store::view::TermView;

// The free variable with this name and this type becomes the variable of a λ around.
#[derive(Clone, Copy)]
pub struct Closing {
    x: u64,
    a: u64,
}

impl<S: Store> Leaf<S> for Closing {
    ghost does = { λ l c F. Closes c l.x l.a F };

    ghost stays = { λ l c d F k o. closes_kept k o };

    fn leaf(&self, store: &mut S, _words: &mut [u64], t: u64, depth: u64) -> Result<u64, NoRoom> {
        match store.view_term(t) {
            Some(TermView::Free(y, b)) => {
                if same_variable(store, self.x, self.a, y, b) {
                    store.bound(depth).ok_or(NoRoom)
                } else {
                    Ok(t)
                }
            }
            _ => Ok(t),
        }
    }

    fn typ(&self, _store: &mut S, _words: &mut [u64], a: u64) -> Result<u64, NoRoom> {
        Ok(a)
    }
}

// The bound variable 0 for the free variable of the name `x` and the type `a` in `t`.
pub fn close<S: Store>(
    store: &mut S,
    words: &mut [u64],
    x: u64,
    a: u64,
    t: u64,
) -> Result<u64, NoRoom>
    requires variable { (w : Word) × (b : Ty) × ((S.state store.old).contents.word x ≡ some w) × ((S.state store.old).contents.typ a ≡ some b) }
    requires stands { (u : Tm) × ((S.state store.old).contents.term t ≡ some u) }
    ensures { (w : Word) (b : Ty) (u : Tm) → (S.state store.old).contents.word x ≡ some w → (S.state store.old).contents.typ a ≡ some b → (S.state store.old).contents.term t ≡ some u → Rebuilds (length words.old) (nodes_tm u) (nodes_tm (close_at 0 w b u)) (S.state store.old) (S.state store.new) (λ d n. d.term n ≡ some (close_at 0 w b u)) result }
{
    rebuild(store, &Closing { x, a }, words, t, 0)
}
