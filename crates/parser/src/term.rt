// The loop that reads a term.
ghost use Rattle.std.specs.Prelude.{◌≡◌, ℕ, Some, ◌≤◌, ◌⊎◌, List, [], ◌∷◌, ◌++◌, length};
ghost use Rattle.hol.specs.Text.{Token as Sign, closes, Sexp, read_term};
ghost use Rattle.lent.specs.Piles.{pile_of};
ghost use Rattle.reader.specs.Flat.{flat, cost, depth};
ghost use Rattle.reader.specs.Next.{stream};
ghost use Rattle.parser_types.specs.Reads.{Absent};
ghost use Rattle.parser.specs.Machine.{Point, At, Moves, TermSays, load};

use crate::brackets::{closes_next, open};
use crate::scope::lookup;
use crate::turn::{Opened, Turn};
use lent::NoRoom;
use lent::stack::Stack;
use reader::tokens::{Token, Tokens};
use store::Store;
use waits::Wait;

// Down into a term: the variable of a λ around, or a bracket. None if no term begins with these tokens.
fn down<S: Store>(
    store: &mut S,
    pending: &mut Stack<'_>,
    names: &mut Stack<'_>,
    tokens: &mut Tokens<'_>,
) -> Result<Option<Turn>, NoRoom>
    ensures capacity { (pile_of pending.new).capacity ≡ (pile_of pending.old).capacity }
    ensures names { (pile_of names.new).capacity ≡ (pile_of names.old).capacity }
    ensures moves { (qs : List Sign) (x : Point) → At (S.state store.old).contents (pile_of pending.old).held (pile_of names.old).held (stream tokens.old) qs Turn.Down x → Moves (load (Some Turn.Down) (pile_of pending.old).held (stream tokens.old)) (pile_of pending.old).capacity (pile_of names.old).capacity (S.state store.old) (S.state store.new) (pile_of pending.new).held (pile_of names.new).held (stream tokens.new) qs x result }
{
    match tokens.next() {
        Some(Token::Word(w)) => {
            let Some(k) = lookup(store, names, w) else {
                return Ok(None);
            };
            Ok(Some(Turn::Up(store.bound(k).ok_or(NoRoom)?)))
        }
        Some(Token::Open) => match open(store, &mut pending.words[pending.len..], tokens)? {
            Some(Opened::Whole(t)) => Ok(Some(Turn::Up(t))),
            Some(Opened::Function) => {
                pending.push_all(&[0, Wait::Function as u64])?;
                Ok(Some(Turn::Down))
            }
            Some(Opened::Under(variable)) => {
                names.push(variable.name)?;
                pending.push_all(&[variable.ty, Wait::Body as u64])?;
                Ok(Some(Turn::Down))
            }
            None => Ok(None),
        }
        Some(Token::Close) => Ok(None),
        None => Ok(None),
    }
}

// Up with a term, to what waits for it. None if something stands behind it that makes no term of what is around.
fn up<S: Store>(
    store: &mut S,
    pending: &mut Stack<'_>,
    names: &mut Stack<'_>,
    tokens: &mut Tokens<'_>,
    t: u64,
) -> Result<Option<Turn>, NoRoom>
    ensures capacity { (pile_of pending.new).capacity ≡ (pile_of pending.old).capacity }
    ensures names { (pile_of names.new).capacity ≡ (pile_of names.old).capacity }
    ensures moves { (qs : List Sign) (x : Point) → At (S.state store.old).contents (pile_of pending.old).held (pile_of names.old).held (stream tokens.old) qs (Turn.Up t) x → Moves (load (Some (Turn.Up t)) (pile_of pending.old).held (stream tokens.old)) (pile_of pending.old).capacity (pile_of names.old).capacity (S.state store.old) (S.state store.new) (pile_of pending.new).held (pile_of names.new).held (stream tokens.new) qs x result }
{
    let Some((wait, kept)) = pending.pop_pair() else {
        return Ok(Some(Turn::End(t)));
    };
    match Wait::from(wait) {
        Wait::Function => {
            pending.push_all(&[t, Wait::Argument as u64])?;
            Ok(Some(Turn::Down))
        }
        Wait::Argument => {
            if !closes_next(tokens) {
                return Ok(None);
            }
            Ok(Some(Turn::Up(store.apply(kept, t).ok_or(NoRoom)?)))
        }
        Wait::Body => {
            if !closes_next(tokens) {
                return Ok(None);
            }
            let _ = names.pop();
            Ok(Some(Turn::Up(store.lambda(kept, t).ok_or(NoRoom)?)))
        }
    }
}

// One term, with no λ around. None too if the bracket around closes instead.
pub fn read_term<S: Store>(
    store: &mut S,
    words: &mut [u64],
    scope: &mut [u64],
    tokens: &mut Tokens<'_>,
) -> Result<Option<u64>, NoRoom>
    requires ahead { ((u : Sexp) × (qs : List Sign) × (stream tokens.old ≡ flat u ++ qs)) ⊎ ((qs : List Sign) × (stream tokens.old ≡ closes ∷ qs)) }
    ensures cases { (n : ℕ) (u : Sexp) (qs : List Sign) → stream tokens.old ≡ flat u ++ qs → depth u ≤ n → TermSays (length words.old) (length scope.old) (cost u) (S.state store.old) (S.state store.new) (read_term n [] u) qs (stream tokens.new) result }
    ensures none { (qs : List Sign) → stream tokens.old ≡ closes ∷ qs → Absent (S.state store.old) (S.state store.new) result }
{
    let mut pending = Stack::new(words);
    let mut names = Stack::new(scope);
    let mut turn = Some(Turn::Down);
    while let Some(now) = turn {
        turn = match now {
            Turn::Down => down(store, &mut pending, &mut names, tokens)?,
            Turn::Up(t) => up(store, &mut pending, &mut names, tokens, t)?,
            Turn::End(t) => return Ok(Some(t)),
        };
    }
    Ok(None)
}
