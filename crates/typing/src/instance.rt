// The type of a constant, with types for the type variables of its type.
ghost use Rattle.std.specs.Prelude.{◌≡◌, ◌+◌, ◌*◌, ◌<◌, [], List, length, reverse};
ghost use Rattle.std.proofs.Math.Option.{some};
ghost use Rattle.hol.specs.Base.{Word};
ghost use Rattle.hol.specs.Syntax.{Ty, Tys, count_tys, zip};
ghost use Rattle.hol.specs.Theory.{Theory, const_at};
ghost use Rattle.store.specs.Measures.{nodes_ty, nodes_tys};
ghost use Rattle.lent.specs.Piles.{pile_of};
ghost use Rattle.lent.specs.Answers.{Answers};
ghost use Rattle.walk.specs.Standing.{Names};
ghost use Rattle.rebuild_types.specs.Entries.{TyEntries};
ghost use Rattle.typing.specs.Typed.{Typed, Tight, nodes_of, declared, instance};

use crate::count::has_count;
use crate::ok::ok_types;
use lent::NoRoom;
use lent::stack::Stack;
use rebuild_types::subst_type;
use signature::Signature;
use store::Store;
use store::view::ListView;
use walk::look::types_at;
use walk::tyvars::tyvars_type;

// Each of the names with a type of the list, one pair behind the other.
fn pair<S: Store>(
    store: &S,
    names: &[u64],
    entries: &mut Stack<'_>,
    list: u64,
) -> Result<(), NoRoom>
    requires empty { (pile_of entries.old).held ≡ [] }
    requires names { (ws : List Word) × Names (S.state store.now).contents names.now ws }
    requires types { (bs : Tys) × ((S.state store.now).contents.types list ≡ some bs) × (count_tys bs ≡ length names.now) }
    ensures { (ws : List Word) (bs : Tys) → Names (S.state store.now).contents names.now ws → (S.state store.now).contents.types list ≡ some bs → count_tys bs ≡ length names.now → Answers ((pile_of entries.old).capacity < 2 * length names.now) (λ _. TyEntries (S.state store.now).contents (reverse (pile_of entries.new).held) (zip ws bs)) result }
{
    let mut rest = list;
    for name in names {
        match types_at(store, rest) {
            ListView::Cons(a, tail) => {
                entries.push_all(&[*name, a])?;
                rest = tail;
            }
            ListView::Nil => unreachable(),
        }
    }
    Ok(())
}

// The type with the types of the list for its type variables, in the order in which these first appear; None where there are not as
// many. `scratch` is lent: what it held is lost.
fn instance<S: Store>(
    store: &mut S,
    words: &mut [u64],
    scratch: &mut [u64],
    a: u64,
    list: u64,
) -> Result<Option<u64>, NoRoom>
    requires typ { (b : Ty) × ((S.state store.old).contents.typ a ≡ some b) }
    requires types { (bs : Tys) × ((S.state store.old).contents.types list ≡ some bs) }
    ensures { (b : Ty) (bs : Tys) → (S.state store.old).contents.typ a ≡ some b → (S.state store.old).contents.types list ≡ some bs → Answers (Tight (length words.old) (length scratch.old) (nodes_ty b) (S.state store.old).left (nodes_of (instance b bs))) (Typed (nodes_of (instance b bs)) (S.state store.old) (S.state store.new) (instance b bs)) result }
{
    let mut gathered = Stack::new(scratch);
    tyvars_type(store, words, &mut gathered, a)?;
    let Stack {
        words: gathered,
        len: count,
    } = gathered;
    if !has_count(store, list, count as u64) {
        return Ok(None);
    }
    let (names, free) = gathered.split_at_mut(count);
    let mut entries = Stack::new(free);
    pair(store, names, &mut entries, list)?;
    Ok(Some(subst_type(store, words, entries.as_slice(), a)?))
}

// The type of the constant of this name, with the types of the list for the type variables of its type; None where there is no such
// constant, or the types are not as many or not ok.
pub fn const_at<S: Store, T: Signature<S>>(
    store: &mut S,
    theory: &T,
    words: &mut [u64],
    scratch: &mut [u64],
    name: u64,
    list: u64,
) -> Result<Option<u64>, NoRoom>
    requires theory { (th : Theory) × (T.Signature.meaning theory.now).knows (S.Store.state store.old).contents th }
    requires word { (w : Word) × ((S.Store.state store.old).contents.word name ≡ some w) }
    requires types { (bs : Tys) × ((S.Store.state store.old).contents.types list ≡ some bs) }
    ensures { (th : Theory) (w : Word) (bs : Tys) → (T.Signature.meaning theory.now).knows (S.Store.state store.old).contents th → (S.Store.state store.old).contents.word name ≡ some w → (S.Store.state store.old).contents.types list ≡ some bs → Answers (Tight (length words.old) (length scratch.old) (declared th w + nodes_tys bs) (S.Store.state store.old).left (nodes_of (const_at th w bs))) (Typed (nodes_of (const_at th w bs)) (S.Store.state store.old) (S.Store.state store.new) (const_at th w bs)) result }
{
    let Some(a) = theory.const_type(store, name) else {
        return Ok(None);
    };
    if !ok_types(store, theory, words, list)? {
        return Ok(None);
    }
    instance(store, words, scratch, a, list)
}
