// Terms built anew over any store: opening, closing, substitution of terms and of types.
#![tactic(auto)]

ghost use Rattle.std.specs.Prelude.{◌≡◌, ℕ, ◌^◌, ◌<◌, true, length};
ghost use Rattle.std.proofs.Math.Option.{some};
ghost use Rattle.hol.specs.Syntax.{Ty, Tm, lam};
ghost use Rattle.store.specs.Measures.{nodes_tm};
ghost use Rattle.lent.specs.Piles.{pile_of};
ghost use Rattle.rebuild_types.specs.Rebuilds.{Rebuilds};
ghost use Rattle.rebuild.specs.Rebuilt.{Change, rebuilt, is_leaf};
ghost use Rattle.rebuild.specs.Machine.{Path, Holds, deep, Point, down, At, Moves};

pub mod closing;
pub mod instantiating;
pub mod leaf;
pub mod opening;
pub mod substituting;
pub mod turn;

use leaf::Leaf;
use lent::NoRoom;
use lent::stack::Stack;
use store::Store;
use store::view::TermView;
use turn::Turn;
use waits::Wait;

// A leaf: what becomes of it is done.
fn at_leaf<S: Store, L: Leaf<S>>(
    store: &mut S,
    leaf: &L,
    stack: &mut Stack<'_>,
    t: u64,
    depth: u64,
) -> Result<Turn, NoRoom>
    requires does { (F : Change) × L.does leaf.now (S.state store.old).contents F }
    requires stands { (u : Tm) × ((S.state store.old).contents.term t ≡ some u) }
    ensures stack { pile_of stack.new ≡ pile_of stack.old }
    ensures moves { (F : Change) (d : ℕ) (p : Path) (u : Tm) → L.does leaf.now (S.state store.old).contents F → (S.state store.old).contents.term t ≡ some u → is_leaf u ≡ true → Holds (S.state store.old).contents (pile_of stack.old).held p → depth ≡ deep d p → Moves F d (pile_of stack.old).capacity (S.state store.old) (S.state store.new) (pile_of stack.old).held (down p u) result }
{
    let n = leaf.leaf(store, &mut stack.words[stack.len..], t, depth)?;
    Ok(Turn::Up(n, depth))
}

// A λ: what becomes of its type waits for its body.
fn into_lambda<S: Store, L: Leaf<S>>(
    store: &mut S,
    leaf: &L,
    stack: &mut Stack<'_>,
    a: u64,
    body: u64,
    depth: u64,
) -> Result<Turn, NoRoom>
    requires does { (F : Change) × L.does leaf.now (S.state store.old).contents F }
    requires stands { (b : Ty) × ((S.state store.old).contents.typ a ≡ some b) }
    ensures capacity { (pile_of stack.new).capacity ≡ (pile_of stack.old).capacity }
    ensures moves { (F : Change) (d : ℕ) (p : Path) (b : Ty) (u : Tm) → L.does leaf.now (S.state store.old).contents F → (S.state store.old).contents.typ a ≡ some b → (S.state store.old).contents.term body ≡ some u → Holds (S.state store.old).contents (pile_of stack.old).held p → depth ≡ deep d p → d < 2 ^ 63 → Moves F d (pile_of stack.old).capacity (S.state store.old) (S.state store.new) (pile_of stack.new).held (down p (lam b u)) result }
{
    let b = leaf.typ(store, &mut stack.words[stack.len..], a)?;
    let under = depth.checked_add(1).ok_or(NoRoom)?;
    stack.push_all(&[b, Wait::Body as u64])?;
    Ok(Turn::Down(body, under))
}

// Down into a term.
fn down<S: Store, L: Leaf<S>>(
    store: &mut S,
    leaf: &L,
    stack: &mut Stack<'_>,
    t: u64,
    depth: u64,
) -> Result<Turn, NoRoom>
    requires does { (F : Change) × L.does leaf.now (S.state store.old).contents F }
    requires stands { (u : Tm) × ((S.state store.old).contents.term t ≡ some u) }
    ensures capacity { (pile_of stack.new).capacity ≡ (pile_of stack.old).capacity }
    ensures moves { (F : Change) (d : ℕ) (x : Point) → L.does leaf.now (S.state store.old).contents F → At d (S.state store.old).contents (pile_of stack.old).held (Turn.Down t depth) x → d < 2 ^ 63 → Moves F d (pile_of stack.old).capacity (S.state store.old) (S.state store.new) (pile_of stack.new).held x result }
{
    match store.view_term(t).ok_or(NoRoom)? {
        TermView::Free(_, _) | TermView::Bound(_) | TermView::Constant(_, _) => at_leaf(
            store, leaf, stack, t, depth,
        ),
        TermView::Apply(g, x) => {
            stack.push_all(&[x, Wait::Function as u64])?;
            Ok(Turn::Down(g, depth))
        }
        TermView::Lambda(a, body) => into_lambda(store, leaf, stack, a, body, depth),
    }
}

// Up with what was built, to what waits for it.
fn up<S: Store>(store: &mut S, stack: &mut Stack<'_>, n: u64, depth: u64) -> Result<Turn, NoRoom>
    ensures capacity { (pile_of stack.new).capacity ≡ (pile_of stack.old).capacity }
    ensures moves { (F : Change) (d : ℕ) (x : Point) → At d (S.state store.old).contents (pile_of stack.old).held (Turn.Up n depth) x → Moves F d (pile_of stack.old).capacity (S.state store.old) (S.state store.new) (pile_of stack.new).held x result }
{
    let Some((k, kept)) = stack.pop_pair() else {
        return Ok(Turn::End(n));
    };
    match Wait::from(k) {
        Wait::Function => {
            stack.push_all(&[n, Wait::Argument as u64])?;
            Ok(Turn::Down(kept, depth))
        }
        Wait::Argument => Ok(Turn::Up(store.apply(kept, n).ok_or(NoRoom)?, depth)),
        Wait::Body => Ok(Turn::Up(
            store.lambda(kept, n).ok_or(NoRoom)?,
            depth.saturating_sub(1),
        )),
    }
}

// The loop: the term `t`, under `depth` λs, with the change that `leaf` does.
pub fn rebuild<S: Store, L: Leaf<S>>(
    store: &mut S,
    leaf: &L,
    words: &mut [u64],
    t: u64,
    depth: u64,
) -> Result<u64, NoRoom>
    requires does { (F : Change) × L.does leaf.now (S.state store.old).contents F }
    requires stands { (u : Tm) × ((S.state store.old).contents.term t ≡ some u) }
    requires shallow { depth < 2 ^ 63 }
    ensures { (F : Change) (u : Tm) → L.does leaf.now (S.state store.old).contents F → (S.state store.old).contents.term t ≡ some u → Rebuilds (length words.old) (nodes_tm u) (nodes_tm (rebuilt F depth u)) (S.state store.old) (S.state store.new) (λ d n. d.term n ≡ some (rebuilt F depth u)) result }
{
    let mut stack = Stack::new(words);
    let mut turn = Turn::Down(t, depth);
    loop {
        turn = match turn {
            Turn::Down(t, depth) => down(store, leaf, &mut stack, t, depth)?,
            Turn::Up(n, depth) => up(store, &mut stack, n, depth)?,
            Turn::End(n) => return Ok(n),
        };
    }
}
