// The brackets of terms: what stands in them besides terms.
ghost use Rattle.std.specs.Prelude.{◌≡◌, false, List, ◌∷◌, ◌++◌, length};
ghost use Rattle.hol.specs.Text.{Token as Sign, closes, Sexps, read_free, read_const};
ghost use Rattle.reader.specs.Flat.{flats, costs};
ghost use Rattle.reader.specs.Next.{stream};
ghost use Rattle.parser_types.specs.Reads.{Reads, NameSays};
ghost use Rattle.parser.specs.Parts.{CloseSays, FormOf, FormSays, BinderSays, OpenSays};

use crate::turn::{Binder, Form, Opened};
use lent::NoRoom;
use parser_types::{read_type, read_types};
use reader::tokens::{Token, Tokens};
use store::Store;

// Whether the next token is a bracket that closes, which is behind then.
pub fn closes_next(tokens: &mut Tokens<'_>) -> bool
    ensures { CloseSays (stream tokens.old) (stream tokens.new) result }
{
    matches!(tokens.next(), Some(Token::Close))
}

// The next token as a name, if it is a word. (`parser_types::type_name` refuses some words before it builds a name: one function for both would
// have to read the token twice.)
fn name_next<S: Store>(store: &mut S, tokens: &mut Tokens<'_>) -> Result<Option<u64>, NoRoom>
    ensures { NameSays (λ w. false) (S.state store.old) (S.state store.new) (stream tokens.old) (stream tokens.new) result }
{
    match tokens.next() {
        Some(Token::Word(w)) => Ok(Some(store.name(w).ok_or(NoRoom)?)),
        _ => Ok(None),
    }
}

// The form that a word begins.
fn form_of(w: &[u8]) -> Option<Form>
    ensures { FormOf w.now result }
{
    match w {
        [b':'] => Some(Form::Free),
        [b'!'] => Some(Form::Constant),
        [b'$'] => Some(Form::Application),
        [b'\\'] => Some(Form::Lambda),
        _ => None,
    }
}

// The form of a bracket, by its first word.
fn form_next(tokens: &mut Tokens<'_>) -> Option<Form>
    ensures { FormSays (stream tokens.old) (stream tokens.new) result }
{
    match tokens.next() {
        Some(Token::Word(w)) => form_of(w),
        _ => None,
    }
}

// x A): a free variable.
fn read_free<S: Store>(
    store: &mut S,
    words: &mut [u64],
    tokens: &mut Tokens<'_>,
) -> Result<Option<u64>, NoRoom>
    ensures { (ts : Sexps) (qs : List Sign) → stream tokens.old ≡ flats ts ++ (closes ∷ qs) → Reads (λ c. c.term) (read_free ts) (length words.old) (costs ts) (S.state store.old) (S.state store.new) qs (stream tokens.new) result }
{
    let Some(variable) = read_binder(store, words, tokens)? else {
        return Ok(None);
    };
    if !closes_next(tokens) {
        return Ok(None);
    }
    Ok(Some(store.free(variable.name, variable.ty).ok_or(NoRoom)?))
}

// c A ..): a constant.
fn read_constant<S: Store>(
    store: &mut S,
    words: &mut [u64],
    tokens: &mut Tokens<'_>,
) -> Result<Option<u64>, NoRoom>
    ensures { (ts : Sexps) (qs : List Sign) → stream tokens.old ≡ flats ts ++ (closes ∷ qs) → Reads (λ c. c.term) (read_const ts) (length words.old) (costs ts) (S.state store.old) (S.state store.new) qs (stream tokens.new) result }
{
    let Some(name) = name_next(store, tokens)? else {
        return Ok(None);
    };
    let Some(list) = read_types(store, words, tokens)? else {
        return Ok(None);
    };
    Ok(Some(store.constant(name, list).ok_or(NoRoom)?))
}

// x A: the variable of a λ.
fn read_binder<S: Store>(
    store: &mut S,
    words: &mut [u64],
    tokens: &mut Tokens<'_>,
) -> Result<Option<Binder>, NoRoom>
    ensures { (ts : Sexps) (qs : List Sign) → stream tokens.old ≡ flats ts ++ (closes ∷ qs) → BinderSays (length words.old) (S.state store.old) (S.state store.new) ts qs (stream tokens.new) result }
{
    let Some(name) = name_next(store, tokens)? else {
        return Ok(None);
    };
    let Some(ty) = read_type(store, words, tokens)? else {
        return Ok(None);
    };
    Ok(Some(Binder { name, ty }))
}

// The beginning of a bracket, up to the first term in it; the whole bracket, if there is none. None if it is no term's.
pub fn open<S: Store>(
    store: &mut S,
    words: &mut [u64],
    tokens: &mut Tokens<'_>,
) -> Result<Option<Opened>, NoRoom>
    ensures { (ts : Sexps) (qs : List Sign) → stream tokens.old ≡ flats ts ++ (closes ∷ qs) → OpenSays (length words.old) (S.state store.old) (S.state store.new) ts qs (stream tokens.new) result }
{
    match form_next(tokens) {
        Some(Form::Free) => Ok(read_free(store, words, tokens)?.map(Opened::Whole)),
        Some(Form::Constant) => Ok(read_constant(store, words, tokens)?.map(Opened::Whole)),
        Some(Form::Application) => Ok(Some(Opened::Function)),
        Some(Form::Lambda) => Ok(read_binder(store, words, tokens)?.map(Opened::Under)),
        None => Ok(None),
    }
}
