// The types of the λs around a term, the innermost newest.
ghost use Rattle.std.specs.Prelude.{◌≡◌};
ghost use Rattle.hol.specs.Base.{nth};
ghost use Rattle.lent.specs.Piles.{pile_of};
ghost use Rattle.signature.specs.Finds.{Finds};

use lent::stack::Stack;

// The type of the n-th λ outwards, from 0; None where there are not so many.
pub fn type_at(scope: &Stack<'_>, n: u64) -> Option<u64>
    ensures { Finds (λ w k. k ≡ w) (nth (pile_of scope.now).held n) result }
{
    scope.as_slice().iter().rev().nth(n as usize).copied()
}
