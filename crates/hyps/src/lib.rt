// Assumption lists over any store: membership, union, removal, each once. Each function is the definition of its name.
#![tactic(auto)]

ghost use Rattle.std.specs.Prelude.{◌≡◌, ◌<◌, ◌⊎◌, List, length};
ghost use Rattle.std.proofs.Math.Option.{some};
ghost use Rattle.hol.specs.Syntax.{Tm};
ghost use Rattle.hol.specs.Kernel as kernel;
ghost use Rattle.store.specs.Measures.{nodes_tms};
ghost use Rattle.hyps.specs.Sifting.{Lists};

mod images;
mod left_out;
mod members;
mod sift;

pub use images::{TermMap, map_dedup};
use left_out::LeftOut;
use lent::NoRoom;
pub use members::contains;
use sift::sift;
use store::Store;

// The terms of `hs` that are not in `gs`, then those of `gs`.
pub fn union<S: Store>(store: &mut S, words: &mut [u64], hs: u64, gs: u64) -> Result<u64, NoRoom>
    requires first { (us : List Tm) × ((S.state store.old).contents.terms hs ≡ some us) }
    requires second { (vs : List Tm) × ((S.state store.old).contents.terms gs ≡ some vs) }
    ensures { (us vs : List Tm)
        → (S.state store.old).contents.terms hs ≡ some us
        → (S.state store.old).contents.terms gs ≡ some vs
        → Lists
        ((length words.old < nodes_tms us)
        ⊎ ((S.state store.old).left < nodes_tms (kernel.union us vs)))
        (kernel.union us vs) (S.state store.old) (S.state store.new) result }
{
    sift(store, words, LeftOut::In(gs), hs, gs)
}

// The terms of `hs` but for those that are the term `t`.
pub fn remove<S: Store>(store: &mut S, words: &mut [u64], t: u64, hs: u64) -> Result<u64, NoRoom>
    requires term { (u : Tm) × ((S.state store.old).contents.term t ≡ some u) }
    requires list { (us : List Tm) × ((S.state store.old).contents.terms hs ≡ some us) }
    ensures { (u : Tm) (us : List Tm)
        → (S.state store.old).contents.term t ≡ some u
        → (S.state store.old).contents.terms hs ≡ some us
        → Lists
        ((length words.old < nodes_tms us)
        ⊎ ((S.state store.old).left < nodes_tms (kernel.remove u us)))
        (kernel.remove u us) (S.state store.old) (S.state store.new) result }
{
    let empty = store.empty();
    sift(store, words, LeftOut::Same(t), hs, empty)
}

// The terms of `hs` that are neither the term `t` nor in `gs`, then those of `gs`: the union of `hs` without `t` and `gs`.
pub fn union_removing<S: Store>(
    store: &mut S,
    words: &mut [u64],
    hs: u64,
    t: u64,
    gs: u64,
) -> Result<u64, NoRoom>
    requires term { (u : Tm) × ((S.state store.old).contents.term t ≡ some u) }
    requires first { (us : List Tm) × ((S.state store.old).contents.terms hs ≡ some us) }
    requires second { (vs : List Tm) × ((S.state store.old).contents.terms gs ≡ some vs) }
    ensures { (u : Tm) (us vs : List Tm)
        → (S.state store.old).contents.term t ≡ some u
        → (S.state store.old).contents.terms hs ≡ some us
        → (S.state store.old).contents.terms gs ≡ some vs
        → Lists
        ((length words.old < nodes_tms us)
        ⊎ ((S.state store.old).left < nodes_tms (kernel.union (kernel.remove u us) vs)))
        (kernel.union (kernel.remove u us) vs) (S.state store.old) (S.state store.new) result }
{
    sift(store, words, LeftOut::SameOrIn(t, gs), hs, gs)
}

// Each of the terms of `hs` once, where the last of those that are the same stood.
pub fn dedup<S: Store>(store: &mut S, words: &mut [u64], hs: u64) -> Result<u64, NoRoom>
    requires list { (us : List Tm) × ((S.state store.old).contents.terms hs ≡ some us) }
    ensures { (us : List Tm)
        → (S.state store.old).contents.terms hs ≡ some us
        → Lists
        ((length words.old < nodes_tms us)
        ⊎ ((S.state store.old).left < nodes_tms (kernel.dedup us)))
        (kernel.dedup us) (S.state store.old) (S.state store.new) result }
{
    let empty = store.empty();
    sift(store, words, LeftOut::Repeated, hs, empty)
}
