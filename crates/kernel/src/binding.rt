// Equality under λs.
ghost use Rattle.std.specs.Prelude.{◌≡◌, ◌+◌, max, not, ◌&&◌, List, [], ◌∷◌, length};
ghost use Rattle.std.proofs.Math.Option.{some};
ghost use Rattle.hol.specs.Base.{Word, any};
ghost use Rattle.hol.specs.Syntax.{Ty, Tm, Seq, equal as equated, fun, abstract as over, free_in};
ghost use Rattle.hol.specs.Theory.{Theory, ok_ty};
ghost use Rattle.hol.specs.Kernel.{Sides, k_lam, k_beta};
ghost use Rattle.lent.specs.Answers.{Answers};
ghost use Rattle.store.specs.Measures.{nodes_ty, nodes_tm, nodes_tms};
ghost use Rattle.store.specs.State.{Stays};
ghost use Rattle.store.specs.Builds.{Made};
ghost use Rattle.theory.specs.Knows.{Knows};
ghost use Rattle.typing.specs.Built.{types_built};
ghost use Rattle.typing.specs.Machine.{widest};
ghost use Rattle.steps.specs.Means.{NameIs, TypeIs, TermIs};
ghost use Rattle.walk.specs.Parts.{Like, IsEquation};
ghost use Rattle.workspace.specs.Refusals.{Lacks, Tests};
ghost use Rattle.theory.specs.Grounds.{Grounded};
ghost use Rattle.kernel.specs.Sequents.{IsSeq, nodes_seq, Gives};
ghost use Rattle.kernel.specs.Redexes.{redex_of, IsRedex};

use crate::redex::Redex;
use crate::sequent::Sequent;
use lent::NoRoom;
use rebuild::opening::open;
use steps::{NameId, TermId, TypeId};
use store::Store;
use theory::ground::Ground;
use theory::table::Decls;
use typing::form::function_type;
use walk::parts::Equation;
use walk::shapes::{abstraction, application, equation};
use workspace::build::equation as equation_of;
use workspace::lists::free_in_none;
use workspace::refusal::Refusal;
use workspace::terms::lambda_over;
use workspace::types::{ok_in, type_in};

// That the type `a` is ok and the variable `x` of this type is free in none of the terms of `hs`.
fn may_bind<S: Store>(
    store: &mut S,
    words: &mut [u64],
    theory: &Decls<'_>,
    x: u64,
    a: u64,
    hs: u64,
) -> Result<(), Refusal>
    requires theory { (th : Theory) × Knows theory.now (S.state store.old).contents th }
    requires name { (w : Word) × ((S.state store.old).contents.word x ≡ some w) }
    requires typ { (b : Ty) × ((S.state store.old).contents.typ a ≡ some b) }
    requires list { (us : List Tm) × ((S.state store.old).contents.terms hs ≡ some us) }
    ensures stays { Stays (S.state store.old) (S.state store.new) }
    ensures cases { (th : Theory) (w : Word) (b : Ty) (us : List Tm) → Knows theory.now (S.state store.old).contents th → (S.state store.old).contents.word x ≡ some w → (S.state store.old).contents.typ a ≡ some b → (S.state store.old).contents.terms hs ≡ some us → Tests (Lacks (length words.old) (max (nodes_ty b) (nodes_tms us)) (S.state store.old).left 0) (ok_ty th b && not (any (free_in w b) us)) result }
{
    ok_in(store, words, theory, a)?;
    free_in_none(store, words, x, a, hs)
}

// The equation between the two sides as the bodies of λs over the variable `x` of type `a`.
fn bound<S: Store>(
    store: &mut S,
    words: &mut [u64],
    ground: Ground,
    x: u64,
    a: u64,
    sides: Equation,
) -> Result<u64, NoRoom>
    requires ground { Grounded (S.state store.old).contents ground }
    requires name { (w : Word) × ((S.state store.old).contents.word x ≡ some w) }
    requires typ { (b : Ty) × ((S.state store.old).contents.typ a ≡ some b) }
    requires sides { (l : Sides) × IsEquation (S.state store.old).contents l sides }
    ensures { (w : Word) (b : Ty) (l : Sides) → (S.state store.old).contents.word x ≡ some w → (S.state store.old).contents.typ a ≡ some b → IsEquation (S.state store.old).contents l sides → Answers (Lacks (length words.old) (max (nodes_tm l.left) (nodes_tm l.right)) (S.state store.old).left (nodes_tm (equated (fun b l.ty) (over w b l.left) (over w b l.right)))) (Made (nodes_tm (equated (fun b l.ty) (over w b l.left) (over w b l.right))) (S.state store.old) (S.state store.new) (λ c n. c.term n ≡ some (equated (fun b l.ty) (over w b l.left) (over w b l.right)))) result }
{
    let left = lambda_over(store, words, x, a, sides.left)?;
    let right = lambda_over(store, words, x, a, sides.right)?;
    let ty = function_type(store, ground.arrow, a, sides.ty)?;
    equation_of(store, ground, ty, left, right)
}

//          Γ ⊢ s = t
//   ------------------------- lam x A        x of type A is free in no assumption
//   Γ ⊢ (λ x. s) = (λ x. t)
pub fn lam<S: Store>(
    store: &mut S,
    words: &mut [u64],
    theory: &Decls<'_>,
    x: NameId,
    a: TypeId,
    premise: &Sequent,
) -> Result<Sequent, Refusal>
    requires theory { (th : Theory) × Knows theory.now (S.state store.old).contents th }
    requires ground { Grounded (S.state store.old).contents theory.now.ground }
    requires name { (w : Word) × NameIs (S.state store.old).contents x w }
    requires typ { (b : Ty) × TypeIs (S.state store.old).contents a b }
    requires premise { (p : Seq) × IsSeq (S.state store.old).contents p premise.now }
    ensures { (th : Theory) (w : Word) (b : Ty) (p : Seq) → Knows theory.now (S.state store.old).contents th → NameIs (S.state store.old).contents x w → TypeIs (S.state store.old).contents a b → IsSeq (S.state store.old).contents p premise.now → Gives th (p ∷ []) (length words.old) (max (nodes_ty b) (nodes_seq p)) 0 (S.state store.old) (S.state store.new) (k_lam th w b p) result }
{
    let hyps = premise.hyps;
    let sides = equation(store, premise.concl).ok_or(Refusal::Unfit)?;
    may_bind(store, words, theory, x.0, a.0, hyps)?;
    let concl = bound(store, words, theory.ground, x.0, a.0, sides)?;
    Ok(Sequent { hyps, concl })
}

// A λ applied to an argument.
fn redex<S: Store>(store: &S, t: u64) -> Option<Redex>
    requires { (u : Tm) × ((S.state store.now).contents.term t ≡ some u) }
    ensures { (u : Tm) → (S.state store.now).contents.term t ≡ some u → Like (IsRedex (S.state store.now).contents) (redex_of u) result }
{
    let whole = application(store, t)?;
    let function = abstraction(store, whole.func)?;
    Some(Redex {
        body: function.body,
        arg: whole.arg,
    })
}

//   --------------------------- beta ((λ x. b) a)        it has a type
//   ⊢ (λ x. b) a = b[a for x]
pub fn beta<S: Store>(
    store: &mut S,
    words: &mut [u64],
    theory: &Decls<'_>,
    t: TermId,
) -> Result<Sequent, Refusal>
    requires theory { (th : Theory) × Knows theory.now (S.state store.old).contents th }
    requires ground { Grounded (S.state store.old).contents theory.now.ground }
    requires term { (u : Tm) × TermIs (S.state store.old).contents t u }
    ensures { (th : Theory) (u : Tm) → Knows theory.now (S.state store.old).contents th → TermIs (S.state store.old).contents t u → Gives th [] (length words.old) (nodes_tm u + widest th) (types_built th [] u) (S.state store.old) (S.state store.new) (k_beta th u) result }
{
    let hyps = store.empty();
    let parts = redex(store, t.0).ok_or(Refusal::Unfit)?;
    let b = type_in(store, words, theory, t.0)?;
    let right = open(store, words, parts.arg, parts.body)?;
    let concl = equation_of(store, theory.ground, b, t.0, right)?;
    Ok(Sequent { hyps, concl })
}
