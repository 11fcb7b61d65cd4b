// Lists of the images of terms under a map, each once.
ghost use Rattle.std.specs.Prelude.{◌≡◌, ◌+◌, ◌*◌, ◌<◌, ◌⊎◌, List, map as mapped, length};
ghost use Rattle.std.proofs.Math.Option.{some};
ghost use Rattle.hol.specs.Syntax.{Tm};
ghost use Rattle.hol.specs.Kernel.{in_hyps, dedup};
ghost use Rattle.store.specs.Measures.{nodes_tm, nodes_tms};
ghost use Rattle.store.specs.State.{Contents, Keeps};
ghost use Rattle.store.specs.Builds.{Made};
ghost use Rattle.lent.specs.Piles.{pile_of};
ghost use Rattle.lent.specs.Answers.{Answers};
ghost use Rattle.hyps.specs.Sifting.{put, extra, poured, Stand, IsTerm, IsList, Lists};

use super::members::contains;
use super::sift::spread;
use lent::NoRoom;
use lent::stack::Stack;
use store::Store;

// A function from terms to terms, by building in a store.
pub trait TermMap<S: Store> {
    // Which function it is, from what is kept.
    ghost does: { Self → Contents → (Tm → Tm) → Type 0 };

    // The image of the term `t`, for at most as many nodes as it has.
    fn image(&self, store: &mut S, words: &mut [u64], t: u64) -> Result<u64, NoRoom>
        requires map { (f : Tm → Tm) × does self.now (S.Store.state store.old).contents f }
        requires term { (u : Tm) × ((S.Store.state store.old).contents.term t ≡ some u) }
        ensures { (f : Tm → Tm) (u : Tm)
            → does self.now (S.Store.state store.old).contents f
            → (S.Store.state store.old).contents.term t ≡ some u
            → Answers
            ((length words.old < 4 * nodes_tm u)
            ⊎ ((S.Store.state store.old).left < nodes_tm (f u)))
            (Made (nodes_tm (f u)) (S.Store.state store.old) (S.Store.state store.new) (IsTerm (f u)))
            result };

    // It is the same where more is kept. (So it is once more where all is given back up to a mark: then what was kept is kept.)
    ghost keeps: { (m : Self) (f : Tm → Tm) (c d : Contents) → does m c f → Keeps c d → does m d f };
}

// The image of the term `t` before the list `so_far`, unless it is there already: then what was built for it is given back.
fn put_image<S: Store, M: TermMap<S>>(
    store: &mut S,
    words: &mut [u64],
    map: &M,
    t: u64,
    so_far: u64,
) -> Result<u64, NoRoom>
    requires map { (f : Tm → Tm) × M.does map.now (S.state store.old).contents f }
    requires term { (u : Tm) × ((S.state store.old).contents.term t ≡ some u) }
    requires list { (vs : List Tm) × ((S.state store.old).contents.terms so_far ≡ some vs) }
    ensures { (f : Tm → Tm) (u : Tm) (vs : List Tm)
        → M.does map.now (S.state store.old).contents f
        → (S.state store.old).contents.term t ≡ some u
        → (S.state store.old).contents.terms so_far ≡ some vs
        → Answers
        ((length words.old < 4 * nodes_tm u)
        ⊎ ((S.state store.old).left < 1 + nodes_tm (f u)))
        (Made (extra in_hyps (f u) vs) (S.state store.old) (S.state store.new) (IsList (put in_hyps (f u) vs)))
        result }
{
    let mark = store.mark();
    let image = map.image(store, words, t)?;
    if contains(store, image, so_far) {
        store.release(mark);
        return Ok(so_far);
    }
    store.cons_term(image, so_far).ok_or(NoRoom)
}

// The loop is that of `sift::gather` but for what is put and what may be short: an image needs words and room at its peak, a term that is there
// needs neither. A trait over both would have to carry both bounds, and say more than the two loops.
//
// The images of the terms on the stack, the newest first, each put before the list so far, which is `start` at first, unless it is in it.
fn gather_images<S: Store, M: TermMap<S>>(
    store: &mut S,
    stack: &mut Stack<'_>,
    map: &M,
    start: u64,
) -> Result<u64, NoRoom>
    requires map { (h : Tm → Tm) × M.does map.now (S.state store.old).contents h }
    requires stand { (us : List Tm) × Stand (S.state store.old).contents (pile_of stack.old).held us }
    requires list { (vs : List Tm) × ((S.state store.old).contents.terms start ≡ some vs) }
    ensures { (h : Tm → Tm) (us vs : List Tm)
        → M.does map.now (S.state store.old).contents h
        → Stand (S.state store.old).contents (pile_of stack.old).held us
        → (S.state store.old).contents.terms start ≡ some vs
        → Lists
        (((pile_of stack.old).capacity < 5 * nodes_tms us)
        ⊎ ((S.state store.old).left < 2 * nodes_tms (poured in_hyps h us vs)))
        (poured in_hyps h us vs) (S.state store.old) (S.state store.new) result }
{
    let mut list = start;
    while let Some(t) = stack.pop() {
        list = put_image(store, &mut stack.words[stack.len..], map, t, list)?;
    }
    Ok(list)
}

// The images of the terms of `hs`, each once, where the last of those that are the same stood. An image that is there already is given
// back at once, so that at the peak no more than twice the nodes of the list are taken.
pub fn map_dedup<S: Store, M: TermMap<S>>(
    store: &mut S,
    words: &mut [u64],
    map: &M,
    hs: u64,
) -> Result<u64, NoRoom>
    requires map { (f : Tm → Tm) × M.does map.now (S.state store.old).contents f }
    requires list { (us : List Tm) × ((S.state store.old).contents.terms hs ≡ some us) }
    ensures { (f : Tm → Tm) (us : List Tm)
        → M.does map.now (S.state store.old).contents f
        → (S.state store.old).contents.terms hs ≡ some us
        → Lists
        ((length words.old < 5 * nodes_tms us)
        ⊎ ((S.state store.old).left < 2 * nodes_tms (dedup (mapped f us))))
        (dedup (mapped f us)) (S.state store.old) (S.state store.new) result }
{
    let empty = store.empty();
    let mut stack = Stack::new(words);
    spread(store, &mut stack, hs)?;
    gather_images(store, &mut stack, map, empty)
}
