// Types of terms, and types that are ok.
ghost use Rattle.std.specs.Prelude.{◌≡◌, ◌≢◌, ◌+◌, [], length, Err};
ghost use Rattle.std.proofs.Math.Option.{some};
ghost use Rattle.hol.specs.Base.{Word};
ghost use Rattle.hol.specs.Syntax.{Ty, Tys, Tm};
ghost use Rattle.hol.specs.Theory.{Theory, ok_ty, const_at as type_at, type_of as typed, has_type as has-typed};
ghost use Rattle.store.specs.Measures.{nodes_ty, nodes_tys, nodes_tm};
ghost use Rattle.store.specs.State.{Grows, Stays};
ghost use Rattle.store.specs.Builds.{Made};
ghost use Rattle.theory.specs.Knows.{Knows};
ghost use Rattle.typing.specs.Built.{types_built};
ghost use Rattle.typing.specs.Machine.{widest};
ghost use Rattle.typing.specs.Typed.{nodes_of};
ghost use Rattle.workspace.specs.Refusals.{Lacks, Serves, Tests};
ghost use Rattle.theory.specs.Grounds.{Grounded};

use crate::refusal::Refusal;
use store::Store;
use theory::table::Decls;
use typing::infer::type_of;
use typing::instance::const_at;
use typing::ok::ok_type;

// The type of the term `t`, if it has one.
pub fn type_in<S: Store>(
    store: &mut S,
    words: &mut [u64],
    theory: &Decls<'_>,
    t: u64,
) -> Result<u64, Refusal>
    requires theory { (th : Theory) × Knows theory.now (S.state store.old).contents th }
    requires ground { Grounded (S.state store.old).contents theory.now.ground }
    requires term { (u : Tm) × ((S.state store.old).contents.term t ≡ some u) }
    ensures { (th : Theory) (u : Tm) → Knows theory.now (S.state store.old).contents th → (S.state store.old).contents.term t ≡ some u → Serves (Lacks (length words.old) (nodes_tm u + widest th) (S.state store.old).left (types_built th [] u)) (Grows (types_built th [] u) (S.state store.old) (S.state store.new)) (λ a. Made (types_built th [] u) (S.state store.old) (S.state store.new) (λ c n. c.typ n ≡ some a)) (typed th u) result }
{
    let third = words.len() / 3;
    let (stack, rest) = words.split_at_mut(third);
    let (scratch, scope) = rest.split_at_mut(third);
    let found = type_of(store, theory, stack, scope, scratch, theory.ground.arrow, t)?;
    found.ok_or(Refusal::Unfit)
}

// That the term `t` has the type `a`.
pub fn has_type<S: Store>(
    store: &mut S,
    words: &mut [u64],
    theory: &Decls<'_>,
    t: u64,
    a: u64,
) -> Result<(), Refusal>
    requires theory { (th : Theory) × Knows theory.now (S.state store.old).contents th }
    requires ground { Grounded (S.state store.old).contents theory.now.ground }
    requires term { (u : Tm) × ((S.state store.old).contents.term t ≡ some u) }
    requires typ { (b : Ty) × ((S.state store.old).contents.typ a ≡ some b) }
    ensures grows { (th : Theory) (u : Tm) → Knows theory.now (S.state store.old).contents th → (S.state store.old).contents.term t ≡ some u → result ≢ Err Refusal.NoRoom → Grows (types_built th [] u) (S.state store.old) (S.state store.new) }
    ensures cases { (th : Theory) (u : Tm) (b : Ty) → Knows theory.now (S.state store.old).contents th → (S.state store.old).contents.term t ≡ some u → (S.state store.old).contents.typ a ≡ some b → Tests (Lacks (length words.old) (nodes_tm u + widest th) (S.state store.old).left (types_built th [] u)) (has-typed th u b) result }
{
    let b = type_in(store, words, theory, t)?;
    if store.same_type(a, b) {
        Ok(())
    } else {
        Err(Refusal::Unfit)
    }
}

// That the type `a` is ok.
pub fn ok_in<S: Store>(
    store: &mut S,
    words: &mut [u64],
    theory: &Decls<'_>,
    a: u64,
) -> Result<(), Refusal>
    requires theory { (th : Theory) × Knows theory.now (S.state store.old).contents th }
    requires typ { (b : Ty) × ((S.state store.old).contents.typ a ≡ some b) }
    ensures stays { Stays (S.state store.old) (S.state store.new) }
    ensures cases { (th : Theory) (b : Ty) → Knows theory.now (S.state store.old).contents th → (S.state store.old).contents.typ a ≡ some b → Tests (Lacks (length words.old) (nodes_ty b) (S.state store.old).left 0) (ok_ty th b) result }
{
    if ok_type(store, theory, words, a)? {
        Ok(())
    } else {
        Err(Refusal::Unfit)
    }
}

// The type of the constant of this name, with the types of the list for the type variables of its type, if they fit.
pub fn constant_type<S: Store>(
    store: &mut S,
    words: &mut [u64],
    theory: &Decls<'_>,
    name: u64,
    list: u64,
) -> Result<u64, Refusal>
    requires theory { (th : Theory) × Knows theory.now (S.state store.old).contents th }
    requires word { (w : Word) × ((S.state store.old).contents.word name ≡ some w) }
    requires types { (bs : Tys) × ((S.state store.old).contents.types list ≡ some bs) }
    ensures { (th : Theory) (w : Word) (bs : Tys) → Knows theory.now (S.state store.old).contents th → (S.state store.old).contents.word name ≡ some w → (S.state store.old).contents.types list ≡ some bs → Serves (Lacks (length words.old) (widest th + nodes_tys bs) (S.state store.old).left (nodes_of (type_at th w bs))) (Grows 0 (S.state store.old) (S.state store.new)) (λ a. Made (nodes_ty a) (S.state store.old) (S.state store.new) (λ c n. c.typ n ≡ some a)) (type_at th w bs) result }
{
    let half = words.len() / 2;
    let (stack, scratch) = words.split_at_mut(half);
    let found = const_at(store, theory, stack, scratch, name, list)?;
    found.ok_or(Refusal::Unfit)
}
