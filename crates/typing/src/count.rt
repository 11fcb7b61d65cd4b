// How long a list of types is.
ghost use Rattle.std.specs.Prelude.{◌≡◌, ◌==◌};
ghost use Rattle.std.proofs.Math.Option.{some};
ghost use Rattle.hol.specs.Syntax.{Tys, count_tys};

use store::Store;
use store::view::ListView;
use walk::look::types_at;

// Whether a list has so many types.
pub fn has_count<S: Store>(store: &S, list: u64, count: u64) -> bool
    requires { (bs : Tys) × ((S.state store.now).contents.types list ≡ some bs) }
    ensures { (bs : Tys) → (S.state store.now).contents.types list ≡ some bs → result ≡ (count_tys bs == count) }
{
    let mut rest = list;
    for _ in 0..count {
        let ListView::Cons(_, tail) = types_at(store, rest) else {
            return false;
        };
        rest = tail;
    }
    matches!(types_at(store, rest), ListView::Nil)
}
