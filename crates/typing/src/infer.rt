// Which type a term has: down into it with what waits on a stack, and up with the types of its parts.
ghost use Rattle.std.specs.Prelude.{◌≡◌, ℕ, ◌<◌, [], length, Some};
ghost use Rattle.std.proofs.Math.Option.{some};
ghost use Rattle.hol.specs.Syntax.{Tm, w_fun};
ghost use Rattle.hol.specs.Theory.{Theory, type_of};
ghost use Rattle.store.specs.Measures.{nodes_tm};
ghost use Rattle.lent.specs.Piles.{pile_of};
ghost use Rattle.lent.specs.Answers.{Answers};
ghost use Rattle.typing.specs.Built.{types_built};
ghost use Rattle.typing.specs.Machine.{Point, At, Moved, Stuck, Cramped, widest};
ghost use Rattle.typing.specs.Typed.{Typed};

use crate::form::{apply_type, function_type};
use crate::instance::const_at;
use crate::ok::ok_type;
use crate::scope::type_at;
use crate::turn::Turn;
use lent::NoRoom;
use lent::stack::Stack;
use signature::Signature;
use store::Store;
use store::view::TermView;
use waits::Wait;
use walk::look::term_at;

// Down into a term: of a variable or a constant the type is found, an application waits for its function, a λ for its body. None where
// there is no type.
fn down<S: Store, T: Signature<S>>(
    store: &mut S,
    theory: &T,
    f: &mut Stack<'_>,
    scope: &mut Stack<'_>,
    scratch: &mut [u64],
    t: u64,
) -> Result<Option<Turn>, NoRoom>
    requires theory { (th : Theory) × (T.Signature.meaning theory.now).knows (S.Store.state store.old).contents th }
    requires at { (x : Point) × At (S.Store.state store.old).contents (pile_of f.old).held (pile_of scope.old).held (Some (Turn.Down t)) x }
    ensures stack { (pile_of f.new).capacity ≡ (pile_of f.old).capacity }
    ensures scope { (pile_of scope.new).capacity ≡ (pile_of scope.old).capacity }
    ensures moves { (th : Theory) (x : Point) → (T.Signature.meaning theory.now).knows (S.Store.state store.old).contents th → At (S.Store.state store.old).contents (pile_of f.old).held (pile_of scope.old).held (Some (Turn.Down t)) x → Answers (Stuck th (pile_of f.old).capacity (length scratch.old) (pile_of scope.old).capacity (S.Store.state store.old) x) (Moved th (S.Store.state store.old) (S.Store.state store.new) (pile_of f.new).held (pile_of scope.new).held x) result }
{
    match term_at(store, t) {
        TermView::Free(_, a) => {
            let ok = ok_type(store, theory, &mut f.words[f.len..], a)?;
            Ok(ok.then_some(Turn::Up(a)))
        }
        TermView::Bound(k) => Ok(type_at(scope, k).map(Turn::Up)),
        TermView::Constant(name, list) => {
            let found = const_at(store, theory, &mut f.words[f.len..], scratch, name, list)?;
            Ok(found.map(Turn::Up))
        }
        TermView::Apply(function, argument) => {
            f.push_all(&[argument, Wait::Function as u64])?;
            Ok(Some(Turn::Down(function)))
        }
        TermView::Lambda(a, body) => {
            if !ok_type(store, theory, &mut f.words[f.len..], a)? {
                return Ok(None);
            }
            f.push_all(&[a, Wait::Body as u64])?;
            scope.push(a)?;
            Ok(Some(Turn::Down(body)))
        }
    }
}

// Up with a type, to what waits for it; None where an argument does not fit its function. What waits keeps a number: an application the
// argument, which is to be done, and then the function's type; a λ the type of its variable. `fun_name` is the number of the name ->.
fn up<S: Store>(
    store: &mut S,
    f: &mut Stack<'_>,
    scope: &mut Stack<'_>,
    fun_name: u64,
    n: u64,
) -> Result<Option<Turn>, NoRoom>
    requires name { (S.state store.old).contents.word fun_name ≡ some w_fun }
    requires at { (x : Point) × At (S.state store.old).contents (pile_of f.old).held (pile_of scope.old).held (Some (Turn.Up n)) x }
    ensures stack { (pile_of f.new).capacity ≡ (pile_of f.old).capacity }
    ensures scope { (pile_of scope.new).capacity ≡ (pile_of scope.old).capacity }
    ensures moves { (th : Theory) (x : Point) (scratch : ℕ) → At (S.state store.old).contents (pile_of f.old).held (pile_of scope.old).held (Some (Turn.Up n)) x → Answers (Stuck th (pile_of f.old).capacity scratch (pile_of scope.old).capacity (S.state store.old) x) (Moved th (S.state store.old) (S.state store.new) (pile_of f.new).held (pile_of scope.new).held x) result }
{
    let Some((k, kept)) = f.pop_pair() else {
        return Ok(Some(Turn::End(n)));
    };
    match Wait::from(k) {
        Wait::Function => {
            f.push_all(&[n, Wait::Argument as u64])?;
            Ok(Some(Turn::Down(kept)))
        }
        Wait::Argument => Ok(apply_type(store, kept, n).map(Turn::Up)),
        Wait::Body => {
            scope.pop();
            Ok(Some(Turn::Up(function_type(store, fun_name, kept, n)?)))
        }
    }
}

// The type of a term; None where it has none. `scope` is for the types of the λs around; all three slices are lent, and what they held is
// lost; `fun_name` is the number of the name ->.
pub fn type_of<S: Store, T: Signature<S>>(
    store: &mut S,
    theory: &T,
    words: &mut [u64],
    scope: &mut [u64],
    scratch: &mut [u64],
    fun_name: u64,
    t: u64,
) -> Result<Option<u64>, NoRoom>
    requires theory { (th : Theory) × (T.Signature.meaning theory.now).knows (S.Store.state store.old).contents th }
    requires name { (S.Store.state store.old).contents.word fun_name ≡ some w_fun }
    requires stands { (u : Tm) × ((S.Store.state store.old).contents.term t ≡ some u) }
    ensures { (th : Theory) (u : Tm) → (T.Signature.meaning theory.now).knows (S.Store.state store.old).contents th → (S.Store.state store.old).contents.term t ≡ some u → Answers (Cramped (length words.old) (length scratch.old) (length scope.old) (nodes_tm u) (widest th) (S.Store.state store.old).left (types_built th [] u)) (Typed (types_built th [] u) (S.Store.state store.old) (S.Store.state store.new) (type_of th u)) result }
{
    let mut f = Stack::new(words);
    let mut around = Stack::new(scope);
    let mut turn = Some(Turn::Down(t));
    while let Some(next) = turn {
        turn = match next {
            Turn::Down(u) => down(store, theory, &mut f, &mut around, scratch, u)?,
            Turn::Up(a) => up(store, &mut f, &mut around, fun_name, a)?,
            Turn::End(a) => return Ok(Some(a)),
        };
    }
    Ok(None)
}
