// Free variables compared: by name and by type.
ghost use Rattle.std.specs.Prelude.{◌≡◌};
ghost use Rattle.std.proofs.Math.Option.{some};
ghost use Rattle.hol.specs.Base.{Word};
ghost use Rattle.hol.specs.Syntax.{Ty, same_var};
ghost use Rattle.store.specs.State.{Stays};

use store::Store;

// Whether the variable of name `y` and type `b` is that of name `x` and type `a`.
pub fn same_variable<S: Store>(store: &mut S, y: u64, b: u64, x: u64, a: u64) -> bool
    ensures stays { Stays (S.state store.old) (S.state store.new) }
    ensures same { (v : Word) (d : Ty) (w : Word) (e : Ty) → (S.state store.old).contents.word y ≡ some v → (S.state store.old).contents.typ b ≡ some d → (S.state store.old).contents.word x ≡ some w → (S.state store.old).contents.typ a ≡ some e → result ≡ same_var v d w e }
{
    store.same_name(y, x) && store.same_type(b, a)
}
