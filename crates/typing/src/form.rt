// Function types: built from their two types, and used up by an application.
ghost use Rattle.std.specs.Prelude.{◌≡◌, ◌<◌};
ghost use Rattle.std.proofs.Math.Option.{some};
ghost use Rattle.hol.specs.Syntax.{Ty, w_fun, fun};
ghost use Rattle.hol.specs.Theory.{app_ty};
ghost use Rattle.store.specs.Builds.{Made};
ghost use Rattle.store.specs.State.{Stays};
ghost use Rattle.lent.specs.Answers.{Answers};
ghost use Rattle.signature.specs.Finds.{Finds};

use lent::NoRoom;
use store::Store;
use walk::shapes::arrow;

// The type of the functions from `a` to `b`. `fun_name` is the number of the name ->.
pub fn function_type<S: Store>(store: &mut S, fun_name: u64, a: u64, b: u64) -> Result<u64, NoRoom>
    ensures { (c d : Ty) → (S.state store.old).contents.word fun_name ≡ some w_fun → (S.state store.old).contents.typ a ≡ some c → (S.state store.old).contents.typ b ≡ some d → Answers ((S.state store.old).left < 3) (Made 3 (S.state store.old) (S.state store.new) (λ e n. e.typ n ≡ some (fun c d))) result }
{
    let empty = store.empty();
    let second = store.cons_type(b, empty).ok_or(NoRoom)?;
    let both = store.cons_type(a, second).ok_or(NoRoom)?;
    store.type_named(fun_name, both).ok_or(NoRoom)
}

// The type of an application, from the types of the function and of the argument; None where they do not fit.
pub fn apply_type<S: Store>(store: &mut S, f: u64, x: u64) -> Option<u64>
    requires function { (c : Ty) × ((S.state store.old).contents.typ f ≡ some c) }
    requires argument { (d : Ty) × ((S.state store.old).contents.typ x ≡ some d) }
    ensures stays { Stays (S.state store.old) (S.state store.new) }
    ensures cases { (c d : Ty) → (S.state store.old).contents.typ f ≡ some c → (S.state store.old).contents.typ x ≡ some d → Finds (λ e n. (S.state store.new).contents.typ n ≡ some e) (app_ty (some c) (some d)) result }
{
    let parts = arrow(store, f)?;
    store.same_type(parts.dom, x).then_some(parts.cod)
}
