// Lists of names in words.
ghost use Rattle.std.specs.Prelude.{◌≡◌, ◌<◌, List, reverse};
ghost use Rattle.std.proofs.Math.Option.{some};
ghost use Rattle.hol.specs.Base.{Word, among};
ghost use Rattle.hol.specs.Syntax.{insert};
ghost use Rattle.store.specs.State.{Stays};
ghost use Rattle.lent.specs.Piles.{pile_of, spare};
ghost use Rattle.walk.specs.Standing.{Names};
ghost use Rattle.walk.specs.TypeVars.{Adds, Gathers};

use lent::NoRoom;
use lent::stack::Stack;
use store::Store;

// Whether a name is one of these.
pub fn among<S: Store>(store: &mut S, name: u64, names: &[u64]) -> bool
    ensures stays { Stays (S.state store.old) (S.state store.new) }
    ensures found { (w : Word) (ws : List Word) → (S.state store.old).contents.word name ≡ some w → Names (S.state store.old).contents names.now ws → result ≡ among w ws }
{
    for other in names {
        if store.same_name(name, *other) {
            return true;
        }
    }
    false
}

// Whether a name is one of those on the stack.
#[tactic(auto, using(crate::proofs::NameLists::listed))]
fn among_held<S: Store>(store: &mut S, name: u64, names: &Stack<'_>) -> bool
    ensures stays { Stays (S.state store.old) (S.state store.new) }
    ensures found { (w : Word) (ws : List Word) → (S.state store.old).contents.word name ≡ some w → Names (S.state store.old).contents (reverse (pile_of names.now).held) ws → result ≡ among w ws }
{
    among(store, name, names.as_slice())
}

// Puts a name on top of the others, unless it is one of them.
pub fn insert<S: Store>(store: &mut S, names: &mut Stack<'_>, name: u64) -> Result<(), NoRoom>
    ensures stays { Stays (S.state store.old) (S.state store.new) }
    ensures adds { Adds (pile_of names.old) (pile_of names.new) }
    ensures words_name { names.new.words.ghost_name ≡ names.old.words.ghost_name }
    ensures cases { (w : Word) (ws : List Word) → (S.state store.old).contents.word name ≡ some w → Names (S.state store.old).contents (reverse (pile_of names.old).held) ws → Gathers (spare (pile_of names.old) < 1) (S.state store.new).contents (insert w ws) (pile_of names.old) (pile_of names.new) result }
{
    if among_held(store, name, names) {
        return Ok(());
    }
    names.push(name)
}
