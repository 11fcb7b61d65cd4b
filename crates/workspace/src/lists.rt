// Assumption lists.
ghost use Rattle.std.specs.Prelude.{◌≡◌, ◌*◌, max, not, List, length};
ghost use Rattle.std.proofs.Math.Option.{some};
ghost use Rattle.hol.specs.Base.{Word, any};
ghost use Rattle.hol.specs.Syntax.{Ty, Tm, free_in};
ghost use Rattle.hol.specs.Kernel as kernel;
ghost use Rattle.lent.specs.Answers.{Answers};
ghost use Rattle.store.specs.Measures.{nodes_tms};
ghost use Rattle.store.specs.State.{Stays};
ghost use Rattle.store.specs.Builds.{Made};
ghost use Rattle.hyps.specs.Sifting.{IsList};
ghost use Rattle.workspace.specs.Refusals.{Lacks, Tests};

use crate::refusal::Refusal;
use hyps::{remove, union_removing};
use lent::NoRoom;
use store::Store;
use store::view::ListView;
use walk::free::free_in;
use walk::look::terms_at;

// The terms of `hs` without the term `t`, joined with those of `gs` without the term `u`.
pub fn join_without<S: Store>(
    store: &mut S,
    words: &mut [u64],
    hs: u64,
    t: u64,
    gs: u64,
    u: u64,
) -> Result<u64, NoRoom>
    requires first { (us : List Tm) × ((S.state store.old).contents.terms hs ≡ some us) }
    requires second { (vs : List Tm) × ((S.state store.old).contents.terms gs ≡ some vs) }
    requires term { (x : Tm) × ((S.state store.old).contents.term t ≡ some x) }
    requires other { (y : Tm) × ((S.state store.old).contents.term u ≡ some y) }
    ensures { (us vs : List Tm) (x y : Tm) → (S.state store.old).contents.terms hs ≡ some us → (S.state store.old).contents.terms gs ≡ some vs → (S.state store.old).contents.term t ≡ some x → (S.state store.old).contents.term u ≡ some y → Answers (Lacks (length words.old) (max (nodes_tms us) (nodes_tms vs)) (S.state store.old).left (2 * nodes_tms (kernel.union (kernel.remove x us) (kernel.remove y vs)))) (Made (2 * nodes_tms (kernel.union (kernel.remove x us) (kernel.remove y vs))) (S.state store.old) (S.state store.new) (IsList (kernel.union (kernel.remove x us) (kernel.remove y vs)))) result }
{
    let rest = remove(store, words, u, gs)?;
    union_removing(store, words, hs, t, rest)
}

// That the variable of name `x` and type `a` is free in none of the terms of `hs`.
pub fn free_in_none<S: Store>(
    store: &mut S,
    words: &mut [u64],
    x: u64,
    a: u64,
    hs: u64,
) -> Result<(), Refusal>
    requires name { (y : Word) × ((S.state store.old).contents.word x ≡ some y) }
    requires typ { (b : Ty) × ((S.state store.old).contents.typ a ≡ some b) }
    requires list { (us : List Tm) × ((S.state store.old).contents.terms hs ≡ some us) }
    ensures stays { Stays (S.state store.old) (S.state store.new) }
    ensures cases { (y : Word) (b : Ty) (us : List Tm) → (S.state store.old).contents.word x ≡ some y → (S.state store.old).contents.typ a ≡ some b → (S.state store.old).contents.terms hs ≡ some us → Tests (Lacks (length words.old) (nodes_tms us) (S.state store.old).left 0) (not (any (free_in y b) us)) result }
{
    // The list lies in the store, in which the body compares: no iterator can borrow it meanwhile.
    let mut rest = hs;
    while let ListView::Cons(h, more) = terms_at(store, rest) {
        if free_in(store, words, x, a, h)? {
            return Err(Refusal::Unfit);
        }
        rest = more;
    }
    Ok(())
}
