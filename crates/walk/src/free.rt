// Free variables.
ghost use Rattle.std.specs.Prelude.{◌≡◌, ◌<◌, length};
ghost use Rattle.std.proofs.Math.Option.{some};
ghost use Rattle.hol.specs.Base.{Word};
ghost use Rattle.hol.specs.Syntax.{Ty, Tm, free_in, closed};
ghost use Rattle.store.specs.Measures.{nodes_tm};
ghost use Rattle.store.specs.State.{Stays};
ghost use Rattle.lent.specs.Answers.{Answers};

use crate::look::term_at;
use crate::subterms::push_subterms;
use lent::NoRoom;
use lent::stack::Stack;
use names::variables::same_variable;
use store::Store;
use store::view::TermView;

// Two loops, and not one over a closure: this one only reads the store, and the one below compares in it.

// Whether the term has no free variable.
pub fn closed<S: Store>(store: &S, words: &mut [u64], t: u64) -> Result<bool, NoRoom>
    requires stands { (u : Tm) × ((S.state store.now).contents.term t ≡ some u) }
    ensures { (u : Tm) → (S.state store.now).contents.term t ≡ some u → Answers (length words.old < nodes_tm u) (λ b. b ≡ closed u) result }
{
    let mut pending = Stack::new(words);
    pending.push(t)?;
    while let Some(next) = pending.pop() {
        let view = term_at(store, next);
        if let TermView::Free(_, _) = view {
            return Ok(false);
        }
        push_subterms(&mut pending, view)?;
    }
    Ok(true)
}

// Whether the variable of name `x` and type `a` is free in the term `t`.
pub fn free_in<S: Store>(
    store: &mut S,
    words: &mut [u64],
    x: u64,
    a: u64,
    t: u64,
) -> Result<bool, NoRoom>
    requires name { (y : Word) × ((S.state store.old).contents.word x ≡ some y) }
    requires typ { (b : Ty) × ((S.state store.old).contents.typ a ≡ some b) }
    requires term { (u : Tm) × ((S.state store.old).contents.term t ≡ some u) }
    ensures stays { Stays (S.state store.old) (S.state store.new) }
    ensures cases { (y : Word) (b : Ty) (u : Tm) → (S.state store.old).contents.word x ≡ some y → (S.state store.old).contents.typ a ≡ some b → (S.state store.old).contents.term t ≡ some u → Answers (length words.old < nodes_tm u) (λ f. f ≡ free_in y b u) result }
{
    let mut pending = Stack::new(words);
    pending.push(t)?;
    while let Some(next) = pending.pop() {
        let view = term_at(store, next);
        if let TermView::Free(name, ty) = view {
            if same_variable(store, x, a, name, ty) {
                return Ok(true);
            }
        } else {
            push_subterms(&mut pending, view)?;
        }
    }
    Ok(false)
}
