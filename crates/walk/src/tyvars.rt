// Type variables, in the order in which they first appear. Their names are gathered on a stack of names, the first one lowest: those that
// are there already stay, and are not gathered again. If room is short, the names are as they were.
ghost use Rattle.std.specs.Prelude.{◌≡◌, ◌+◌, List, length, reverse, Some};
ghost use Rattle.std.proofs.Math.Option.{some};
ghost use Rattle.hol.specs.Base.{Word};
ghost use Rattle.hol.specs.Syntax.{Ty, Tys, Tm, tyvars_ty, tyvars_tys, tyvars_tm};
ghost use Rattle.store.specs.Measures.{nodes_ty, nodes_tys, nodes_tm};
ghost use Rattle.store.specs.State.{Stays};
ghost use Rattle.store.specs.Views.{TermSays};
ghost use Rattle.lent.specs.Answers.{Answers};
ghost use Rattle.lent.specs.Piles.{pile_of, spare};
ghost use Rattle.walk.specs.Standing.{Names};
ghost use Rattle.walk.specs.TypeVars.{Adds, Gathers, Short, own_tyvars, own_nodes};

use crate::firsts::{first_type, push_behind};
use crate::listed::insert;
use crate::look::{term_at, type_at};
use crate::subterms::push_subterms;
use lent::NoRoom;
use lent::stack::Stack;
use store::Store;
use store::view::{TermView, TypeView};

// Gathers the type variables of a list of types; if room is short, maybe not all.
fn gather_types<S: Store>(
    store: &mut S,
    words: &mut [u64],
    names: &mut Stack<'_>,
    list: u64,
) -> Result<(), NoRoom>
    requires names { (ws : List Word) × Names (S.state store.old).contents (reverse (pile_of names.old).held) ws }
    requires stands { (bs : Tys) × ((S.state store.old).contents.types list ≡ some bs) }
    ensures stays { Stays (S.state store.old) (S.state store.new) }
    ensures adds { Adds (pile_of names.old) (pile_of names.new) }
    ensures words_name { names.new.words.ghost_name ≡ names.old.words.ghost_name }
    ensures cases { (bs : Tys) (ws : List Word) → (S.state store.old).contents.types list ≡ some bs → Names (S.state store.old).contents (reverse (pile_of names.old).held) ws → Answers (Short (length words.old) (spare (pile_of names.old)) (1 + nodes_tys bs)) (λ _. Names (S.state store.new).contents (reverse (pile_of names.new).held) (tyvars_tys bs ws)) result }
{
    let mut pending = Stack::new(words);
    pending.push(list)?;
    while let Some(next) = pending.pop() {
        let Some((first, rest)) = first_type(store, next) else {
            continue;
        };
        push_behind(&mut pending, first, rest)?;
        if let TypeView::Variable(name) = first {
            insert(store, names, name)?;
        }
    }
    Ok(())
}

// Gathers the type variables of a list of types.
pub fn tyvars_types<S: Store>(
    store: &mut S,
    words: &mut [u64],
    names: &mut Stack<'_>,
    list: u64,
) -> Result<(), NoRoom>
    requires names { (ws : List Word) × Names (S.state store.old).contents (reverse (pile_of names.old).held) ws }
    requires stands { (bs : Tys) × ((S.state store.old).contents.types list ≡ some bs) }
    ensures stays { Stays (S.state store.old) (S.state store.new) }
    ensures adds { Adds (pile_of names.old) (pile_of names.new) }
    ensures words_name { names.new.words.ghost_name ≡ names.old.words.ghost_name }
    ensures cases { (bs : Tys) (ws : List Word) → (S.state store.old).contents.types list ≡ some bs → Names (S.state store.old).contents (reverse (pile_of names.old).held) ws → Gathers (Short (length words.old) (spare (pile_of names.old)) (1 + nodes_tys bs)) (S.state store.new).contents (tyvars_tys bs ws) (pile_of names.old) (pile_of names.new) result }
{
    let start = names.len();
    let gathered = gather_types(store, words, names, list);
    if gathered.is_err() {
        names.truncate(start);
    }
    gathered
}

// Gathers the type variables of a type.
pub fn tyvars_type<S: Store>(
    store: &mut S,
    words: &mut [u64],
    names: &mut Stack<'_>,
    a: u64,
) -> Result<(), NoRoom>
    requires names { (ws : List Word) × Names (S.state store.old).contents (reverse (pile_of names.old).held) ws }
    requires stands { (b : Ty) × ((S.state store.old).contents.typ a ≡ some b) }
    ensures stays { Stays (S.state store.old) (S.state store.new) }
    ensures adds { Adds (pile_of names.old) (pile_of names.new) }
    ensures words_name { names.new.words.ghost_name ≡ names.old.words.ghost_name }
    ensures cases { (b : Ty) (ws : List Word) → (S.state store.old).contents.typ a ≡ some b → Names (S.state store.old).contents (reverse (pile_of names.old).held) ws → Gathers (Short (length words.old) (spare (pile_of names.old)) (nodes_ty b)) (S.state store.new).contents (tyvars_ty b ws) (pile_of names.old) (pile_of names.new) result }
{
    match type_at(store, a) {
        TypeView::Variable(name) => insert(store, names, name),
        TypeView::Named(_, args) => tyvars_types(store, words, names, args),
    }
}

// Gathers the type variables that stand in a term's own node, above what is pending.
fn tyvars_node<S: Store>(
    store: &mut S,
    pending: &mut Stack<'_>,
    names: &mut Stack<'_>,
    view: TermView,
) -> Result<(), NoRoom>
    requires names { (ws : List Word) × Names (S.state store.old).contents (reverse (pile_of names.old).held) ws }
    requires stands { (t : Tm) × TermSays (S.state store.old).contents t (Some view) }
    ensures pending { pile_of pending.new ≡ pile_of pending.old }
    ensures stays { Stays (S.state store.old) (S.state store.new) }
    ensures adds { Adds (pile_of names.old) (pile_of names.new) }
    ensures words_name { names.new.words.ghost_name ≡ names.old.words.ghost_name }
    ensures cases { (t : Tm) (ws : List Word) → TermSays (S.state store.old).contents t (Some view) → Names (S.state store.old).contents (reverse (pile_of names.old).held) ws → Gathers (Short (spare (pile_of pending.old)) (spare (pile_of names.old)) (own_nodes t)) (S.state store.new).contents (own_tyvars t ws) (pile_of names.old) (pile_of names.new) result }
{
    let free = &mut pending.words[pending.len..];
    match view {
        TermView::Bound(_) | TermView::Apply(_, _) => Ok(()),
        TermView::Constant(_, args) => tyvars_types(store, free, names, args),
        TermView::Free(_, a) | TermView::Lambda(a, _) => tyvars_type(store, free, names, a),
    }
}

// Gathers the type variables of a term; if room is short, maybe not all.
fn gather_term<S: Store>(
    store: &mut S,
    words: &mut [u64],
    names: &mut Stack<'_>,
    t: u64,
) -> Result<(), NoRoom>
    requires names { (ws : List Word) × Names (S.state store.old).contents (reverse (pile_of names.old).held) ws }
    requires stands { (u : Tm) × ((S.state store.old).contents.term t ≡ some u) }
    ensures stays { Stays (S.state store.old) (S.state store.new) }
    ensures adds { Adds (pile_of names.old) (pile_of names.new) }
    ensures words_name { names.new.words.ghost_name ≡ names.old.words.ghost_name }
    ensures cases { (u : Tm) (ws : List Word) → (S.state store.old).contents.term t ≡ some u → Names (S.state store.old).contents (reverse (pile_of names.old).held) ws → Answers (Short (length words.old) (spare (pile_of names.old)) (nodes_tm u)) (λ _. Names (S.state store.new).contents (reverse (pile_of names.new).held) (tyvars_tm u ws)) result }
{
    let mut pending = Stack::new(words);
    pending.push(t)?;
    while let Some(next) = pending.pop() {
        let view = term_at(store, next);
        tyvars_node(store, &mut pending, names, view)?;
        push_subterms(&mut pending, view)?;
    }
    Ok(())
}

// Gathers the type variables of a term.
pub fn tyvars_term<S: Store>(
    store: &mut S,
    words: &mut [u64],
    names: &mut Stack<'_>,
    t: u64,
) -> Result<(), NoRoom>
    requires names { (ws : List Word) × Names (S.state store.old).contents (reverse (pile_of names.old).held) ws }
    requires stands { (u : Tm) × ((S.state store.old).contents.term t ≡ some u) }
    ensures stays { Stays (S.state store.old) (S.state store.new) }
    ensures adds { Adds (pile_of names.old) (pile_of names.new) }
    ensures words_name { names.new.words.ghost_name ≡ names.old.words.ghost_name }
    ensures cases { (u : Tm) (ws : List Word) → (S.state store.old).contents.term t ≡ some u → Names (S.state store.old).contents (reverse (pile_of names.old).held) ws → Gathers (Short (length words.old) (spare (pile_of names.old)) (nodes_tm u)) (S.state store.new).contents (tyvars_tm u ws) (pile_of names.old) (pile_of names.new) result }
{
    let start = names.len();
    let gathered = gather_term(store, words, names, t);
    if gathered.is_err() {
        names.truncate(start);
    }
    gathered
}
