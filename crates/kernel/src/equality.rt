// Equality.
ghost use Rattle.std.specs.Prelude.{◌≡◌, ◌+◌, ◌<◌, max, ◌&&◌, [], ◌∷◌, length};
ghost use Rattle.std.proofs.Math.Option.{some};
ghost use Rattle.hol.specs.Syntax.{Ty, Tm, app, Seq, same_ty, same_tm, equal};
ghost use Rattle.hol.specs.Theory.{Theory};
ghost use Rattle.hol.specs.Kernel.{Sides, k_refl, k_trans, k_use};
ghost use Rattle.lent.specs.Answers.{Answers};
ghost use Rattle.store.specs.Builds.{Made};
ghost use Rattle.store.specs.Measures.{nodes_tm};
ghost use Rattle.store.specs.State.{Stays};
ghost use Rattle.theory.specs.Knows.{Knows};
ghost use Rattle.typing.specs.Built.{types_built};
ghost use Rattle.typing.specs.Machine.{widest};
ghost use Rattle.steps.specs.Means.{TermIs};
ghost use Rattle.walk.specs.Parts.{IsEquation};
ghost use Rattle.theory.specs.Grounds.{Grounded};
ghost use Rattle.kernel.specs.Sequents.{IsSeq, nodes_seq, Gives};

use crate::sequent::Sequent;
use hyps::union;
use lent::NoRoom;
use steps::TermId;
use store::Store;
use theory::ground::Ground;
use theory::table::Decls;
use walk::parts::Equation;
use walk::shapes::{arrow, equation};
use workspace::build::equation as equation_of;
use workspace::refusal::Refusal;
use workspace::types::type_in;

//   ----------- refl t        t has a type
//     ⊢ t = t
pub fn refl<S: Store>(
    store: &mut S,
    words: &mut [u64],
    theory: &Decls<'_>,
    t: TermId,
) -> Result<Sequent, Refusal>
    requires theory { (th : Theory) × Knows theory.now (S.state store.old).contents th }
    requires ground { Grounded (S.state store.old).contents theory.now.ground }
    requires term { (u : Tm) × TermIs (S.state store.old).contents t u }
    ensures { (th : Theory) (u : Tm) → Knows theory.now (S.state store.old).contents th → TermIs (S.state store.old).contents t u → Gives th [] (length words.old) (nodes_tm u + widest th) (types_built th [] u) (S.state store.old) (S.state store.new) (k_refl th u) result }
{
    let hyps = store.empty();
    let a = type_in(store, words, theory, t.0)?;
    let concl = equation_of(store, theory.ground, a, t.0, t.0)?;
    Ok(Sequent { hyps, concl })
}

// Whether the right side of the first equation is the left side of the second, at the same type.
fn meets<S: Store>(store: &mut S, first: Equation, second: Equation) -> bool
    ensures stays { Stays (S.state store.old) (S.state store.new) }
    ensures same { (p q : Sides) → IsEquation (S.state store.old).contents p first → IsEquation (S.state store.old).contents q second → result ≡ (same_ty p.ty q.ty && same_tm p.right q.left) }
{
    store.same_type(first.ty, second.ty) && store.same(first.right, second.left)
}

//   Γ ⊢ s = t     Δ ⊢ t = u
//   ------------------------- trans
//         Γ ∪ Δ ⊢ s = u
pub fn trans<S: Store>(
    store: &mut S,
    words: &mut [u64],
    ground: Ground,
    first: &Sequent,
    second: &Sequent,
) -> Result<Sequent, Refusal>
    requires ground { Grounded (S.state store.old).contents ground }
    requires first { (p : Seq) × IsSeq (S.state store.old).contents p first.now }
    requires second { (q : Seq) × IsSeq (S.state store.old).contents q second.now }
    ensures { (th : Theory) (p q : Seq) → IsSeq (S.state store.old).contents p first.now → IsSeq (S.state store.old).contents q second.now → Gives th (p ∷ q ∷ []) (length words.old) (max (nodes_seq p) (nodes_seq q)) 0 (S.state store.old) (S.state store.new) (k_trans p q) result }
{
    let left = equation(store, first.concl).ok_or(Refusal::Unfit)?;
    let right = equation(store, second.concl).ok_or(Refusal::Unfit)?;
    if !meets(store, left, right) {
        return Err(Refusal::Unfit);
    }
    let hyps = union(store, words, first.hyps, second.hyps)?;
    let concl = equation_of(store, ground, left.ty, left.left, right.right)?;
    Ok(Sequent { hyps, concl })
}

// The equation between the first function of `fs` applied to the first argument of `xs` and the second to the second, at the type `b`.
fn applied<S: Store>(
    store: &mut S,
    ground: Ground,
    b: u64,
    fs: Equation,
    xs: Equation,
) -> Result<u64, NoRoom>
    ensures { (d : Ty) (p q : Sides) → Grounded (S.state store.old).contents ground → (S.state store.old).contents.typ b ≡ some d → IsEquation (S.state store.old).contents p fs → IsEquation (S.state store.old).contents q xs → Answers ((S.state store.old).left < 6) (Made 6 (S.state store.old) (S.state store.new) (λ c n. c.term n ≡ some (equal d (app p.left q.left) (app p.right q.right)))) result }
{
    let left = store.apply(fs.left, xs.left).ok_or(NoRoom)?;
    let right = store.apply(fs.right, xs.right).ok_or(NoRoom)?;
    equation_of(store, ground, b, left, right)
}

//   Γ ⊢ f = g     Δ ⊢ x = y
//   ------------------------- use        f has type A -> B, and x type A
//       Γ ∪ Δ ⊢ f x = g y
pub fn use_rule<S: Store>(
    store: &mut S,
    words: &mut [u64],
    ground: Ground,
    functions: &Sequent,
    arguments: &Sequent,
) -> Result<Sequent, Refusal>
    requires ground { Grounded (S.state store.old).contents ground }
    requires first { (p : Seq) × IsSeq (S.state store.old).contents p functions.now }
    requires second { (q : Seq) × IsSeq (S.state store.old).contents q arguments.now }
    ensures { (th : Theory) (p q : Seq) → IsSeq (S.state store.old).contents p functions.now → IsSeq (S.state store.old).contents q arguments.now → Gives th (p ∷ q ∷ []) (length words.old) (max (nodes_seq p) (nodes_seq q)) 0 (S.state store.old) (S.state store.new) (k_use p q) result }
{
    let fs = equation(store, functions.concl).ok_or(Refusal::Unfit)?;
    let xs = equation(store, arguments.concl).ok_or(Refusal::Unfit)?;
    let ty = arrow(store, fs.ty).ok_or(Refusal::Unfit)?;
    if !store.same_type(ty.dom, xs.ty) {
        return Err(Refusal::Unfit);
    }
    let hyps = union(store, words, functions.hyps, arguments.hyps)?;
    let concl = applied(store, ground, ty.cod, fs, xs)?;
    Ok(Sequent { hyps, concl })
}
