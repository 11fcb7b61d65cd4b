// Terms built from parts.
ghost use Rattle.std.specs.Prelude.{◌≡◌, ◌<◌};
ghost use Rattle.std.proofs.Math.Option.{some};
ghost use Rattle.hol.specs.Syntax.{Ty, Tm, equal};
ghost use Rattle.lent.specs.Answers.{Answers};
ghost use Rattle.store.specs.Builds.{Made};
ghost use Rattle.theory.specs.Grounds.{Grounded};

use lent::NoRoom;
use store::Store;
use theory::ground::Ground;

// The equation of `s` and `t` between terms of type `a`, node by node.
pub fn equation<S: Store>(
    store: &mut S,
    ground: Ground,
    a: u64,
    s: u64,
    t: u64,
) -> Result<u64, NoRoom>
    ensures { (b : Ty) (u v : Tm) → Grounded (S.state store.old).contents ground → (S.state store.old).contents.typ a ≡ some b → (S.state store.old).contents.term s ≡ some u → (S.state store.old).contents.term t ≡ some v → Answers ((S.state store.old).left < 4) (Made 4 (S.state store.old) (S.state store.new) (λ c n. c.term n ≡ some (equal b u v))) result }
{
    let nothing = store.empty();
    let list = store.cons_type(a, nothing).ok_or(NoRoom)?;
    let sign = store.constant(ground.equality, list).ok_or(NoRoom)?;
    let left = store.apply(sign, s).ok_or(NoRoom)?;
    store.apply(left, t).ok_or(NoRoom)
}
