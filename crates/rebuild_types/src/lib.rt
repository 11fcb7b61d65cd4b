// Types built anew over any store: types for type variables, all at once.
#![tactic(auto)]

ghost use Rattle.std.specs.Prelude.{◌≡◌, [], length};
ghost use Rattle.std.proofs.Math.Option.{some};
ghost use Rattle.hol.specs.Base.{Word};
ghost use Rattle.hol.specs.Syntax.{Ty, Tys, TySubst, find_ty, subst_ty, subst_tys};
ghost use Rattle.lent.specs.Piles.{pile_of};
ghost use Rattle.store.specs.Measures.{nodes_ty, nodes_tys};
ghost use Rattle.store.specs.State.{Stays};
ghost use Rattle.rebuild_types.specs.Entries.{TyEntries, Finds};
ghost use Rattle.rebuild_types.specs.Rebuilds.{Rebuilds};
ghost use Rattle.rebuild_types.specs.Machine.{Sort, Of, nodes, substituted, item, Is, root, Point, down, moves, At, Moves};

pub mod turn;

use lent::NoRoom;
use lent::stack::Stack;
use store::Store;
use store::view::{ListView, TypeView};
use turn::{Turn, Wait};

// The type that the first of the entries for this name has.
fn find<S: Store>(store: &mut S, entries: &[u64], name: u64) -> Option<u64>
    ensures stays { Stays (S.state store.old) (S.state store.new) }
    ensures cases { (es : TySubst) (w : Word) → TyEntries (S.state store.old).contents entries.now es → (S.state store.old).contents.word name ≡ some w → Finds (S.state store.old).contents (find_ty es w) result }
{
    let mut rest = entries;
    while let [x, a, tail @ ..] = rest {
        if store.same_name(name, *x) {
            return Some(*a);
        }
        rest = tail;
    }
    None
}

// Down into a type: a variable is looked up, a named type waits for its arguments.
fn down_type<S: Store>(
    store: &mut S,
    stack: &mut Stack<'_>,
    entries: &[u64],
    a: u64,
) -> Result<Turn, NoRoom>
    ensures capacity { (pile_of stack.new).capacity ≡ (pile_of stack.old).capacity }
    ensures moves { (es : TySubst) (x : Point) → TyEntries (S.state store.old).contents entries.now es → At (S.state store.old).contents (pile_of stack.old).held (Turn.DownType a) x → Moves es (pile_of stack.old).capacity (S.state store.old) (S.state store.new) (pile_of stack.new).held x result }
{
    match store.view_type(a).ok_or(NoRoom)? {
        TypeView::Variable(name) => Ok(find(store, entries, name).map_or(Turn::Up(a), Turn::Up)),
        TypeView::Named(name, args) => {
            stack.push_all(&[name, Wait::Arguments as u64])?;
            Ok(Turn::DownTypes(args))
        }
    }
}

// Down into a list of types: the empty list is done, of another the rest waits for the first.
fn down_types<S: Store>(store: &mut S, stack: &mut Stack<'_>, list: u64) -> Result<Turn, NoRoom>
    ensures capacity { (pile_of stack.new).capacity ≡ (pile_of stack.old).capacity }
    ensures moves { (es : TySubst) (x : Point) → At (S.state store.old).contents (pile_of stack.old).held (Turn.DownTypes list) x → Moves es (pile_of stack.old).capacity (S.state store.old) (S.state store.new) (pile_of stack.new).held x result }
{
    match store.view_types(list).ok_or(NoRoom)? {
        ListView::Nil => Ok(Turn::Up(list)),
        ListView::Cons(a, rest) => {
            stack.push_all(&[rest, Wait::Head as u64])?;
            Ok(Turn::DownType(a))
        }
    }
}

// Up with what was built, to what waits for it.
fn up<S: Store>(store: &mut S, stack: &mut Stack<'_>, n: u64) -> Result<Turn, NoRoom>
    ensures capacity { (pile_of stack.new).capacity ≡ (pile_of stack.old).capacity }
    ensures moves { (es : TySubst) (x : Point) → At (S.state store.old).contents (pile_of stack.old).held (Turn.Up n) x → Moves es (pile_of stack.old).capacity (S.state store.old) (S.state store.new) (pile_of stack.new).held x result }
{
    let Some((k, kept)) = stack.pop_pair() else {
        return Ok(Turn::End(n));
    };
    match Wait::from(k) {
        Wait::Arguments => Ok(Turn::Up(store.type_named(kept, n).ok_or(NoRoom)?)),
        Wait::Head => {
            stack.push_all(&[n, Wait::Tail as u64])?;
            Ok(Turn::DownTypes(kept))
        }
        Wait::Tail => Ok(Turn::Up(store.cons_type(kept, n).ok_or(NoRoom)?)),
    }
}

// The loop: a type or a list of types, with the entries' types for its variables.
fn run<S: Store>(
    store: &mut S,
    words: &mut [u64],
    entries: &[u64],
    start: Turn,
) -> Result<u64, NoRoom>
    requires entries { (es : TySubst) × TyEntries (S.state store.old).contents entries.now es }
    requires start { (k : Sort) × (y : Of k) × At (S.state store.old).contents [] start (down root y) }
    ensures { (es : TySubst) (k : Sort) (y : Of k) → TyEntries (S.state store.old).contents entries.now es → At (S.state store.old).contents [] start (down root y) → Rebuilds (length words.old) (nodes k y) (nodes k (substituted es k y)) (S.state store.old) (S.state store.new) (Is (item k (substituted es k y))) result }
{
    let mut stack = Stack::new(words);
    let mut turn = start;
    loop {
        turn = match turn {
            Turn::DownType(a) => down_type(store, &mut stack, entries, a)?,
            Turn::DownTypes(list) => down_types(store, &mut stack, list)?,
            Turn::Up(n) => up(store, &mut stack, n)?,
            Turn::End(n) => return Ok(n),
        };
    }
}

// The type `a` with the entries' types for its type variables. Variables that have no entry reuse their numbers.
pub fn subst_type<S: Store>(
    store: &mut S,
    words: &mut [u64],
    entries: &[u64],
    a: u64,
) -> Result<u64, NoRoom>
    requires entries { (es : TySubst) × TyEntries (S.state store.old).contents entries.now es }
    requires stands { (b : Ty) × ((S.state store.old).contents.typ a ≡ some b) }
    ensures { (es : TySubst) (b : Ty) → TyEntries (S.state store.old).contents entries.now es → (S.state store.old).contents.typ a ≡ some b → Rebuilds (length words.old) (nodes_ty b) (nodes_ty (subst_ty es b)) (S.state store.old) (S.state store.new) (λ d n. d.typ n ≡ some (subst_ty es b)) result }
{
    run(store, words, entries, Turn::DownType(a))
}

// The same in every type of a list.
pub fn subst_types<S: Store>(
    store: &mut S,
    words: &mut [u64],
    entries: &[u64],
    list: u64,
) -> Result<u64, NoRoom>
    requires entries { (es : TySubst) × TyEntries (S.state store.old).contents entries.now es }
    requires stands { (b : Tys) × ((S.state store.old).contents.types list ≡ some b) }
    ensures { (es : TySubst) (b : Tys) → TyEntries (S.state store.old).contents entries.now es → (S.state store.old).contents.types list ≡ some b → Rebuilds (length words.old) (nodes_tys b) (nodes_tys (subst_tys es b)) (S.state store.old) (S.state store.new) (λ d n. d.types n ≡ some (subst_tys es b)) result }
{
    run(store, words, entries, Turn::DownTypes(list))
}
