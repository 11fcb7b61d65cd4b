// The λs around, by the names of their variables.
ghost use Rattle.std.specs.Prelude.{◌≡◌, List};
ghost use Rattle.hol.specs.Base.{Word};
ghost use Rattle.hol.specs.Text.{index_of};
ghost use Rattle.lent.specs.Piles.{pile_of};
ghost use Rattle.parser.specs.Scope.{Names, Places};

use lent::stack::Stack;
use names::is_named;
use store::Store;

// How many λs outwards the innermost one stands whose variable has this name.
pub fn lookup<S: Store>(store: &S, names: &Stack<'_>, w: &[u8]) -> Option<u64>
    ensures { (xs : List Word) → Names (S.state store.now).contents (pile_of names.now).held xs → Places (index_of w.now xs 0) result }
{
    // Counted, and not by `position`: what `is_named` answers of a number that stands for no name is not said.
    let mut outwards = 0;
    for name in names.as_slice().iter().rev() {
        if is_named(store, *name, w) {
            return Some(outwards);
        }
        outwards += 1;
    }
    None
}
