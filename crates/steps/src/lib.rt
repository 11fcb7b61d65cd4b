// What the steps of a proof and the commands of a text say, by numbers of a store.

#![tactic(auto)]

// The number of a name.
#[derive(Clone, Copy)]
pub struct NameId(pub u64);

// The number of a type.
#[derive(Clone, Copy)]
pub struct TypeId(pub u64);

// The number of a list of types.
#[derive(Clone, Copy)]
pub struct TypesId(pub u64);

// The number of a term.
#[derive(Clone, Copy)]
pub struct TermId(pub u64);

// The place of an earlier step of the same proof, from 0. The largest word stands for itself and all above: no proof has so many steps.
#[derive(Clone, Copy)]
pub struct Place(pub u64);

// A step, named by its word in a text. The entries of `inst` and `types` lie in words beside the step; it has how many words they are:
// three an entry of `inst` (name, type, term), two an entry of `types` (name, type).
#[derive(Clone, Copy)]
pub enum Step {
    Refl(TermId),
    Trans(Place, Place),
    Use(Place, Place),
    Lam(NameId, TypeId, Place),
    Beta(TermId),
    Assume(TermId),
    Eqmp(Place, Place),
    Anti(Place, Place),
    Inst(Place, usize),
    Types(Place, usize),
    Eta(TermId),
    Choose(TermId, TermId),
    Unfold(NameId, TypesId),
    Known(NameId),
}

// A command, named by its word in a text. Of a theorem only the name was read: its steps are ahead.
#[derive(Clone, Copy)]
pub enum Command {
    Type(NameId),
    Const(NameId, TypeId),
    Def(NameId, TypeId, TermId),
    Axiom(NameId, TermId),
    Thm(NameId),
}
