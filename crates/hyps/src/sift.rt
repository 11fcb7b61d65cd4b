// Putting the terms of a list before another list, from the last to the first, and leaving some out.
ghost use Rattle.std.specs.Prelude.{◌≡◌, ◌<◌, Bool, ◌⊎◌, List, [], length};
ghost use Rattle.std.proofs.Math.Option.{some};
ghost use Rattle.hol.specs.Syntax.{Tm};
ghost use Rattle.store.specs.Measures.{nodes_tms};
ghost use Rattle.store.specs.State.{Stays};
ghost use Rattle.store.specs.Builds.{Made};
ghost use Rattle.lent.specs.Piles.{pile_of};
ghost use Rattle.lent.specs.Answers.{Answers};
ghost use Rattle.hyps.specs.Sifting.{put, extra, sifted, poured, Stand, Spreads, IsList, Lists};
ghost use Rattle.hyps.specs.Leaving.{Leaves};

use super::left_out::LeftOut;
use super::members::contains;
use lent::NoRoom;
use lent::stack::Stack;
use store::Store;
use store::view::ListView;
use walk::look::terms_at;

// Whether the term `t` is left out where it would be put before the list `so_far`.
fn leaves_out<S: Store>(store: &mut S, left_out: LeftOut, t: u64, so_far: u64) -> bool
    requires test { (p : Tm → List Tm → Bool) × Leaves (S.state store.old).contents left_out p }
    requires term { (u : Tm) × ((S.state store.old).contents.term t ≡ some u) }
    requires list { (vs : List Tm) × ((S.state store.old).contents.terms so_far ≡ some vs) }
    ensures stays { Stays (S.state store.old) (S.state store.new) }
    ensures made { (p : Tm → List Tm → Bool) (u : Tm) (vs : List Tm)
        → Leaves (S.state store.old).contents left_out p
        → (S.state store.old).contents.term t ≡ some u
        → (S.state store.old).contents.terms so_far ≡ some vs
        → result ≡ p u vs }
{
    match left_out {
        LeftOut::In(list) => contains(store, t, list),
        LeftOut::Same(term) => store.same(term, t),
        LeftOut::SameOrIn(term, list) => store.same(term, t) || contains(store, t, list),
        LeftOut::Repeated => contains(store, t, so_far),
    }
}

// The term `t` before the list `so_far`, unless it is left out.
fn put_before<S: Store>(
    store: &mut S,
    left_out: LeftOut,
    t: u64,
    so_far: u64,
) -> Result<u64, NoRoom>
    requires test { (p : Tm → List Tm → Bool) × Leaves (S.state store.old).contents left_out p }
    requires term { (u : Tm) × ((S.state store.old).contents.term t ≡ some u) }
    requires list { (vs : List Tm) × ((S.state store.old).contents.terms so_far ≡ some vs) }
    ensures { (p : Tm → List Tm → Bool) (u : Tm) (vs : List Tm)
        → Leaves (S.state store.old).contents left_out p
        → (S.state store.old).contents.term t ≡ some u
        → (S.state store.old).contents.terms so_far ≡ some vs
        → Answers
        ((S.state store.old).left < extra p u vs)
        (Made (extra p u vs) (S.state store.old) (S.state store.new) (IsList (put p u vs))) result }
{
    if leaves_out(store, left_out, t, so_far) {
        return Ok(so_far);
    }
    store.cons_term(t, so_far).ok_or(NoRoom)
}

// The terms of the list `hs` onto an empty stack, the last of them the newest.
pub fn spread<S: Store>(store: &S, stack: &mut Stack<'_>, hs: u64) -> Result<(), NoRoom>
    requires empty { (pile_of stack.old).held ≡ [] }
    requires list { (us : List Tm) × ((S.state store.now).contents.terms hs ≡ some us) }
    ensures capacity { (pile_of stack.new).capacity ≡ (pile_of stack.old).capacity }
    ensures cases { (us : List Tm)
        → (S.state store.now).contents.terms hs ≡ some us
        → Spreads (S.state store.now).contents us (pile_of stack.old) (pile_of stack.new) result }
{
    // The list lies in the store, by numbers: an iterator over it would say of each number what `terms_at` says, and no less.
    let mut rest = hs;
    while let ListView::Cons(h, more) = terms_at(store, rest) {
        stack.push(h)?;
        rest = more;
    }
    Ok(())
}

// The terms on the stack, the newest first, each put before the list so far, which is `start` at first, unless it is left out.
fn gather<S: Store>(
    store: &mut S,
    stack: &mut Stack<'_>,
    left_out: LeftOut,
    start: u64,
) -> Result<u64, NoRoom>
    requires test { (p : Tm → List Tm → Bool) × Leaves (S.state store.old).contents left_out p }
    requires stand { (us : List Tm) × Stand (S.state store.old).contents (pile_of stack.old).held us }
    requires list { (vs : List Tm) × ((S.state store.old).contents.terms start ≡ some vs) }
    ensures { (p : Tm → List Tm → Bool) (us vs : List Tm)
        → Leaves (S.state store.old).contents left_out p
        → Stand (S.state store.old).contents (pile_of stack.old).held us
        → (S.state store.old).contents.terms start ≡ some vs
        → Lists
        ((S.state store.old).left < nodes_tms (poured p (λ u. u) us vs))
        (poured p (λ u. u) us vs) (S.state store.old) (S.state store.new) result }
{
    let mut list = start;
    while let Some(t) = stack.pop() {
        list = put_before(store, left_out, t, list)?;
    }
    Ok(list)
}

// The terms of the list `hs` before the list `start`, but for those left out.
pub fn sift<S: Store>(
    store: &mut S,
    words: &mut [u64],
    left_out: LeftOut,
    hs: u64,
    start: u64,
) -> Result<u64, NoRoom>
    requires test { (p : Tm → List Tm → Bool) × Leaves (S.state store.old).contents left_out p }
    requires terms { (us : List Tm) × ((S.state store.old).contents.terms hs ≡ some us) }
    requires list { (vs : List Tm) × ((S.state store.old).contents.terms start ≡ some vs) }
    ensures { (p : Tm → List Tm → Bool) (us vs : List Tm)
        → Leaves (S.state store.old).contents left_out p
        → (S.state store.old).contents.terms hs ≡ some us
        → (S.state store.old).contents.terms start ≡ some vs
        → Lists
        ((length words.old < nodes_tms us)
        ⊎ ((S.state store.old).left < nodes_tms (sifted p (λ u. u) us vs)))
        (sifted p (λ u. u) us vs) (S.state store.old) (S.state store.new) result }
{
    let mut stack = Stack::new(words);
    spread(store, &mut stack, hs)?;
    gather(store, &mut stack, left_out, start)
}
