// Terms and types by their shape.
ghost use Rattle.std.specs.Prelude.{◌≡◌};
ghost use Rattle.std.proofs.Math.Option.{some};
ghost use Rattle.hol.specs.Syntax.{Ty, Tys, Tm, arrow};
ghost use Rattle.hol.specs.Kernel.{app_of, lam_of, eq_of, sides};
ghost use Rattle.walk.specs.Parts.{Like, IsApplication, IsAbstraction, IsEquation, IsFunctionType, IsType, only, two};

use crate::look::{term_at, type_at, types_at};
use crate::parts::{Abstraction, Application, Equation, FunctionType};
use names::is_named;
use store::Store;
use store::view::{ListView, TermView, TypeView};

// The function and the argument of an application.
pub fn application<S: Store>(store: &S, t: u64) -> Option<Application>
    requires { (u : Tm) × ((S.state store.now).contents.term t ≡ some u) }
    ensures { (u : Tm) → (S.state store.now).contents.term t ≡ some u → Like (IsApplication (S.state store.now).contents) (app_of u) result }
{
    match term_at(store, t) {
        TermView::Apply(func, arg) => Some(Application { func, arg }),
        _ => None,
    }
}

// The type and the body of a λ.
pub fn abstraction<S: Store>(store: &S, t: u64) -> Option<Abstraction>
    requires { (u : Tm) × ((S.state store.now).contents.term t ≡ some u) }
    ensures { (u : Tm) → (S.state store.now).contents.term t ≡ some u → Like (IsAbstraction (S.state store.now).contents) (lam_of u) result }
{
    match term_at(store, t) {
        TermView::Lambda(ty, body) => Some(Abstraction { ty, body }),
        _ => None,
    }
}

// The type of a list that has one.
fn only_type<S: Store>(store: &S, list: u64) -> Option<u64>
    requires { (bs : Tys) × ((S.state store.now).contents.types list ≡ some bs) }
    ensures { (bs : Tys) → (S.state store.now).contents.types list ≡ some bs → Like (IsType (S.state store.now).contents) (only bs) result }
{
    match types_at(store, list) {
        ListView::Nil => None,
        ListView::Cons(a, rest) => match types_at(store, rest) {
            ListView::Nil => Some(a),
            ListView::Cons(_, _) => None,
        },
    }
}

// The types of a list that has two.
fn two_types<S: Store>(store: &S, list: u64) -> Option<FunctionType>
    requires { (bs : Tys) × ((S.state store.now).contents.types list ≡ some bs) }
    ensures { (bs : Tys) → (S.state store.now).contents.types list ≡ some bs → Like (IsFunctionType (S.state store.now).contents) (two bs) result }
{
    match types_at(store, list) {
        ListView::Nil => None,
        ListView::Cons(dom, rest) => {
            let cod = only_type(store, rest)?;
            Some(FunctionType { dom, cod })
        }
    }
}

// The two types of a function type.
pub fn arrow<S: Store>(store: &S, a: u64) -> Option<FunctionType>
    requires { (b : Ty) × ((S.state store.now).contents.typ a ≡ some b) }
    ensures { (b : Ty) → (S.state store.now).contents.typ a ≡ some b → Like (IsFunctionType (S.state store.now).contents) (arrow b) result }
{
    match type_at(store, a) {
        TypeView::Named(name, args) if is_named(store, name, b"->") => two_types(store, args),
        _ => None,
    }
}

// The type at which a term is the constant =.
fn equality<S: Store>(store: &S, t: u64) -> Option<u64>
    requires { (u : Tm) × ((S.state store.now).contents.term t ≡ some u) }
    ensures { (u : Tm) → (S.state store.now).contents.term t ≡ some u → Like (IsType (S.state store.now).contents) (eq_of u) result }
{
    match term_at(store, t) {
        TermView::Constant(name, args) if is_named(store, name, b"=") => only_type(store, args),
        _ => None,
    }
}

// An equation's type and sides.
pub fn equation<S: Store>(store: &S, t: u64) -> Option<Equation>
    requires { (u : Tm) × ((S.state store.now).contents.term t ≡ some u) }
    ensures { (u : Tm) → (S.state store.now).contents.term t ≡ some u → Like (IsEquation (S.state store.now).contents) (sides u) result }
{
    let whole = application(store, t)?;
    let left = application(store, whole.func)?;
    let ty = equality(store, left.func)?;
    Some(Equation {
        ty,
        left: left.arg,
        right: whole.arg,
    })
}
