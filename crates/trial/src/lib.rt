// Code over any store, proved from what the trait promises alone: it builds, compares, and gives back what it built.
#![tactic(auto)]

ghost use Rattle.std.specs.Prelude.{◌≡◌};
ghost use Rattle.store.specs.State.{Stays};
ghost use Rattle.trial.specs.Trials.{AppliedSays, TwiceSays, TrialSays};

use store::Store;

// The term `x x` for the free variable x of type 'a, with nothing of it taken from before.
fn self_applied<S: Store>(store: &mut S) -> Option<u64>
    ensures { AppliedSays (S.state store.old) (S.state store.new) result }
{
    let a = store.letter(b"'a")?;
    let x = store.name(b"x")?;
    let v = store.free(x, a)?;
    store.apply(v, v)
}

// Builds a term twice and compares the two: they are the same. None for want of room.
fn built_twice<S: Store>(store: &mut S) -> Option<bool>
    ensures { TwiceSays (S.state store.old) (S.state store.new) result }
{
    let s = self_applied(store)?;
    let t = self_applied(store)?;
    Some(store.same(s, t))
}

// The same, and all room is given back.
pub fn trial<S: Store>(store: &mut S) -> Option<bool>
    ensures cases { TrialSays (S.state store.old).left result }
    ensures stays { Stays (S.state store.old) (S.state store.new) }
    ensures contents { (S.state store.new).contents ≡ (S.state store.old).contents }
{
    let mark = store.mark();
    let answer = built_twice(store);
    store.release(mark);
    answer
}
