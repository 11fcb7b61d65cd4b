// Views of numbers that stand for something: there is always one.
ghost use Rattle.std.specs.Prelude.{◌≡◌, List, Some};
ghost use Rattle.std.proofs.Math.Option.{some};
ghost use Rattle.hol.specs.Syntax.{Ty, Tys, Tm};
ghost use Rattle.store.specs.Views.{TypeSays, TypesSays, TermSays, TermsSays};

use store::Store;
use store::view::{ListView, TermView, TypeView};

// How the type is made.
pub fn type_at<S: Store>(store: &S, n: u64) -> TypeView
    requires { (a : Ty) × ((S.state store.now).contents.typ n ≡ some a) }
    ensures { (a : Ty) → (S.state store.now).contents.typ n ≡ some a → TypeSays (S.state store.now).contents a (Some result) }
{
    match store.view_type(n) {
        Some(view) => view,
        None => unreachable(),
    }
}

// The first type of the list and the rest, or that it is empty.
pub fn types_at<S: Store>(store: &S, n: u64) -> ListView
    requires { (bs : Tys) × ((S.state store.now).contents.types n ≡ some bs) }
    ensures { (bs : Tys) → (S.state store.now).contents.types n ≡ some bs → TypesSays (S.state store.now).contents bs (Some result) }
{
    match store.view_types(n) {
        Some(view) => view,
        None => unreachable(),
    }
}

// How the term is made.
pub fn term_at<S: Store>(store: &S, n: u64) -> TermView
    requires { (t : Tm) × ((S.state store.now).contents.term n ≡ some t) }
    ensures { (t : Tm) → (S.state store.now).contents.term n ≡ some t → TermSays (S.state store.now).contents t (Some result) }
{
    match store.view_term(n) {
        Some(view) => view,
        None => unreachable(),
    }
}

// The first term of the list and the rest, or that it is empty.
pub fn terms_at<S: Store>(store: &S, n: u64) -> ListView
    requires { (us : List Tm) × ((S.state store.now).contents.terms n ≡ some us) }
    ensures { (us : List Tm) → (S.state store.now).contents.terms n ≡ some us → TermsSays (S.state store.now).contents us (Some result) }
{
    match store.view_terms(n) {
        Some(view) => view,
        None => unreachable(),
    }
}
