// Types and lists of types from a stream of tokens, into any store.
#![tactic(auto)]

ghost use Rattle.std.specs.Prelude.{◌≡◌, List, ◌∷◌, ◌++◌, length};
ghost use Rattle.hol.specs.Theory.{is_tyvar};
ghost use Rattle.hol.specs.Text.{Token as Sign, closes, Sexp, Sexps, read_type, read_types};
ghost use Rattle.reader.specs.Flat.{flat, flats, cost, costs};
ghost use Rattle.reader.specs.Next.{stream};
ghost use Rattle.parser_types.specs.Reads.{Reads, Absent, WordSays, NameSays};
ghost use Rattle.lent.specs.Piles.{pile_of};
ghost use Rattle.parser_types.specs.Machine.{Point, At, Moves, Advances, Falls, FallsOn};

pub mod turn;

use lent::NoRoom;
use lent::stack::Stack;
use reader::tokens::{Token, Tokens};
use store::Store;
use turn::{Mark, Turn};

// Whether a word is a type variable: ' and at least one byte more.
pub fn is_type_variable(w: &[u8]) -> bool
    ensures { result ≡ is_tyvar w.now }
{
    w.len() > 1 && w[0] == b'\''
}

// The type that a word stands for: a type variable, or a type without arguments.
fn word_type<S: Store>(store: &mut S, w: &[u8]) -> Result<u64, NoRoom>
    ensures { WordSays w.now (S.state store.old) (S.state store.new) result }
{
    if is_type_variable(w) {
        return store.letter(w).ok_or(NoRoom);
    }
    let name = store.name(w).ok_or(NoRoom)?;
    store.type_named(name, store.empty()).ok_or(NoRoom)
}

// The name behind an opening bracket, which is no type variable.
fn type_name<S: Store>(store: &mut S, tokens: &mut Tokens<'_>) -> Result<Option<u64>, NoRoom>
    ensures { NameSays is_tyvar (S.state store.old) (S.state store.new) (stream tokens.old) (stream tokens.new) result }
{
    match tokens.next() {
        Some(Token::Word(w)) if !is_type_variable(w) => Ok(Some(store.name(w).ok_or(NoRoom)?)),
        _ => Ok(None),
    }
}

// Reads on in a bracket: a word is a type, a bracket opens with its name, or the bracket at hand closes. None if no list of types goes on
// with these tokens.
fn advance<S: Store>(
    store: &mut S,
    pending: &mut Stack<'_>,
    tokens: &mut Tokens<'_>,
) -> Result<Option<Turn>, NoRoom>
    ensures capacity { (pile_of pending.new).capacity ≡ (pile_of pending.old).capacity }
    ensures moves { (qs : List Sign) (x : Point) → At (S.state store.old).contents (pile_of pending.old).held (stream tokens.old) qs Turn.Next x → Advances (pile_of pending.old).capacity (S.state store.old) (S.state store.new) (pile_of pending.new).held (stream tokens.new) qs x result }
    ensures falls { FallsOn Turn.Next (pile_of pending.old).held (stream tokens.old) (pile_of pending.new).held (stream tokens.new) result }
{
    match tokens.next() {
        Some(Token::Word(w)) => {
            let a = word_type(store, w)?;
            pending.push_all(&[a, Mark::Argument as u64])?;
            Ok(Some(Turn::Next))
        }
        Some(Token::Open) => {
            let Some(name) = type_name(store, tokens)? else {
                return Ok(None);
            };
            pending.push_all(&[name, Mark::Bracket as u64])?;
            Ok(Some(Turn::Next))
        }
        Some(Token::Close) => Ok(Some(Turn::Close(store.empty()))),
        None => Ok(None),
    }
}

// Takes the newest pair off the stack, where a bracket closed: a type comes before the list, a name makes a type of it.
fn collect<S: Store>(store: &mut S, pending: &mut Stack<'_>, list: u64) -> Result<Turn, NoRoom>
    ensures capacity { (pile_of pending.new).capacity ≡ (pile_of pending.old).capacity }
    ensures moves { (ps qs : List Sign) (x : Point) → At (S.state store.old).contents (pile_of pending.old).held ps qs (Turn.Close list) x → Moves (pile_of pending.old).capacity (S.state store.old) (S.state store.new) (pile_of pending.new).held ps qs x result }
    ensures falls { (ps : List Sign) → Falls (Turn.Close list) (pile_of pending.old).held ps (pile_of pending.new).held ps result }
{
    let Some((mark, n)) = pending.pop_pair() else {
        return Ok(Turn::End(list));
    };
    match Mark::from(mark) {
        Mark::Argument => Ok(Turn::Close(store.cons_type(n, list).ok_or(NoRoom)?)),
        Mark::Bracket => {
            let a = store.type_named(n, list).ok_or(NoRoom)?;
            pending.push_all(&[a, Mark::Argument as u64])?;
            Ok(Turn::Next)
        }
    }
}

// The types up to the bracket that closes behind them, which is behind then too.
pub fn read_types<S: Store>(
    store: &mut S,
    words: &mut [u64],
    tokens: &mut Tokens<'_>,
) -> Result<Option<u64>, NoRoom>
    ensures { (us : Sexps) (qs : List Sign) → stream tokens.old ≡ flats us ++ (closes ∷ qs) → Reads (λ c. c.types) (read_types us) (length words.old) (costs us) (S.state store.old) (S.state store.new) qs (stream tokens.new) result }
{
    let mut pending = Stack::new(words);
    let mut turn = Turn::Next;
    loop {
        turn = match turn {
            Turn::Next => {
                let Some(next) = advance(store, &mut pending, tokens)? else {
                    return Ok(None);
                };
                next
            }
            Turn::Close(list) => collect(store, &mut pending, list)?,
            Turn::End(list) => return Ok(Some(list)),
        };
    }
}

// One type: a word, or a bracket with a name and types. None too if the bracket around closes instead.
pub fn read_type<S: Store>(
    store: &mut S,
    words: &mut [u64],
    tokens: &mut Tokens<'_>,
) -> Result<Option<u64>, NoRoom>
    ensures cases { (u : Sexp) (qs : List Sign) → stream tokens.old ≡ flat u ++ qs → Reads (λ c. c.typ) (read_type u) (length words.old) (cost u) (S.state store.old) (S.state store.new) qs (stream tokens.new) result }
    ensures none { (qs : List Sign) → stream tokens.old ≡ closes ∷ qs → Absent (S.state store.old) (S.state store.new) result }
{
    match tokens.next() {
        Some(Token::Word(w)) => Ok(Some(word_type(store, w)?)),
        Some(Token::Open) => {
            let Some(name) = type_name(store, tokens)? else {
                return Ok(None);
            };
            let Some(list) = read_types(store, words, tokens)? else {
                return Ok(None);
            };
            Ok(Some(store.type_named(name, list).ok_or(NoRoom)?))
        }
        Some(Token::Close) => Ok(None),
        None => Ok(None),
    }
}
