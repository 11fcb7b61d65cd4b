// What is in a list of terms.
ghost use Rattle.std.specs.Prelude.{◌≡◌, List};
ghost use Rattle.std.proofs.Math.Option.{some};
ghost use Rattle.hol.specs.Syntax.{Tm};
ghost use Rattle.hol.specs.Kernel.{in_hyps};
ghost use Rattle.store.specs.State.{Stays};

use store::Store;
use store::view::ListView;
use walk::look::terms_at;

// Whether the list `hs` has the term `t`.
pub fn contains<S: Store>(store: &mut S, t: u64, hs: u64) -> bool
    requires term { (u : Tm) × ((S.state store.old).contents.term t ≡ some u) }
    requires list { (us : List Tm) × ((S.state store.old).contents.terms hs ≡ some us) }
    ensures stays { Stays (S.state store.old) (S.state store.new) }
    ensures made { (u : Tm) (us : List Tm)
        → (S.state store.old).contents.term t ≡ some u
        → (S.state store.old).contents.terms hs ≡ some us
        → result ≡ in_hyps u us }
{
    // The list lies in the store, in which the body compares: no iterator can borrow it meanwhile.
    let mut rest = hs;
    while let ListView::Cons(h, more) = terms_at(store, rest) {
        if store.same(t, h) {
            return true;
        }
        rest = more;
    }
    false
}
