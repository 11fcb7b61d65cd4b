// The terms right below a term, onto a stack.
ghost use Rattle.std.specs.Prelude.{◌≡◌};
ghost use Rattle.lent.specs.Piles.{pile_of, Pushes};
ghost use Rattle.walk.specs.Below.{below};

use lent::NoRoom;
use lent::stack::Stack;
use store::view::TermView;

// The function, newest, and the argument of an application, or the body of a λ.
pub(crate) fn push_subterms(pending: &mut Stack<'_>, view: TermView) -> Result<(), NoRoom>
    ensures cases { Pushes (below view) (pile_of pending.old) (pile_of pending.new) result }
    ensures words_name { pending.new.words.ghost_name ≡ pending.old.words.ghost_name }
{
    match view {
        TermView::Free(_, _) | TermView::Bound(_) | TermView::Constant(_, _) => Ok(()),
        TermView::Apply(func, arg) => pending.push_all(&[arg, func]),
        TermView::Lambda(_, body) => pending.push(body),
    }
}
