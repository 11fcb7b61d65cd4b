// Where names, types and terms are kept, by numbers. The kernel and all that goes into terms are written over any store, and proved
// from what this trait promises.
#![tactic(auto)]

ghost use Rattle.std.specs.Prelude.{◌≡◌, ℕ, ◌+◌, ◌≤◌, true, List, [], length};
ghost use Rattle.std.proofs.Math.Option.{some};
ghost use Rattle.hol.specs.Base.{Word};
ghost use Rattle.hol.specs.Syntax.{Ty, Tys, tnil, Tm};
ghost use Rattle.store.specs.Measures.{nodes_ty, nodes_tys, nodes_tm, nodes_tms, capped};
ghost use Rattle.store.specs.State.{State, Stays, back};
ghost use Rattle.store.specs.Builds.{Builds, IsWord, IsLetter, IsTyvar, IsTyapp, IsTypes, IsFree, IsBound, IsConst, IsApp, IsLam, IsTerms};
ghost use Rattle.store.specs.Views.{NameSays, TypeSays, TypesSays, TermSays, TermsSays};

pub mod view;

use view::{ListView, NameView, TermView, TypeView};

pub trait Store {
    // What the store holds.
    ghost state: { Self → State };

    // The number of the empty name, of the empty list of types and of the empty list of terms.
    fn empty(&self) -> u64
        ensures word { (state self.now).contents.word result ≡ some [] }
        ensures types { (state self.now).contents.types result ≡ some tnil }
        ensures terms { (state self.now).contents.terms result ≡ some [] };

    // BUILDING. None comes only for want of room, and then nothing has changed.

    // The name with these bytes. It costs a node for each byte.
    fn name(&mut self, w: &[u8]) -> Option<u64>
        ensures { Builds (length w.now) (state self.old) (state self.new) (IsWord w.now) result };

    // The type variable whose name has these bytes. It costs a node, and one for each byte.
    fn letter(&mut self, w: &[u8]) -> Option<u64>
        ensures { Builds (1 + length w.now) (state self.old) (state self.new) (IsLetter w.now) result };

    // The type variable of this name.
    fn type_variable(&mut self, name: u64) -> Option<u64>
        ensures { Builds 1 (state self.old) (state self.new) (IsTyvar name) result };

    // The named type with these arguments.
    fn type_named(&mut self, name: u64, args: u64) -> Option<u64>
        ensures { Builds 1 (state self.old) (state self.new) (IsTyapp name args) result };

    // The list of types with `a` before `rest`.
    fn cons_type(&mut self, a: u64, rest: u64) -> Option<u64>
        ensures { Builds 1 (state self.old) (state self.new) (IsTypes a rest) result };

    // The free variable of this name and type.
    fn free(&mut self, name: u64, a: u64) -> Option<u64>
        ensures { Builds 1 (state self.old) (state self.new) (IsFree name a) result };

    // The variable of the k-th λ outwards.
    fn bound(&mut self, k: u64) -> Option<u64>
        ensures { Builds 1 (state self.old) (state self.new) (IsBound k) result };

    // The constant of this name, with these types for the type variables of its type.
    fn constant(&mut self, name: u64, args: u64) -> Option<u64>
        ensures { Builds 1 (state self.old) (state self.new) (IsConst name args) result };

    // `f` applied to `x`.
    fn apply(&mut self, f: u64, x: u64) -> Option<u64>
        ensures { Builds 1 (state self.old) (state self.new) (IsApp f x) result };

    // The λ over a variable of type `a` with the body `t`.
    fn lambda(&mut self, a: u64, t: u64) -> Option<u64>
        ensures { Builds 1 (state self.old) (state self.new) (IsLam a t) result };

    // The list of terms with `t` before `rest`.
    fn cons_term(&mut self, t: u64, rest: u64) -> Option<u64>
        ensures { Builds 1 (state self.old) (state self.new) (IsTerms t rest) result };

    // COMPARING takes no room and ends for any two numbers. One function for each kind of number, as what a number stands for is told by
    // the map that is asked: a function over all kinds would need a type for each in every signature, and say the same three clauses.

    // Whether two numbers stand for the same term.
    fn same(&mut self, s: u64, t: u64) -> bool
        ensures stays { Stays (state self.old) (state self.new) }
        ensures sound { result ≡ true → (state self.old).contents.term s ≡ (state self.old).contents.term t }
        ensures complete { (u : Tm) → (state self.old).contents.term s ≡ some u → (state self.old).contents.term t ≡ some u → result ≡ true };

    // Whether two numbers stand for the same type.
    fn same_type(&mut self, a: u64, b: u64) -> bool
        ensures stays { Stays (state self.old) (state self.new) }
        ensures sound { result ≡ true → (state self.old).contents.typ a ≡ (state self.old).contents.typ b }
        ensures complete { (u : Ty) → (state self.old).contents.typ a ≡ some u → (state self.old).contents.typ b ≡ some u → result ≡ true };

    // Whether two numbers stand for the same name.
    fn same_name(&mut self, v: u64, w: u64) -> bool
        ensures stays { Stays (state self.old) (state self.new) }
        ensures sound { result ≡ true → (state self.old).contents.word v ≡ (state self.old).contents.word w }
        ensures complete { (u : Word) → (state self.old).contents.word v ≡ some u → (state self.old).contents.word w ≡ some u → result ≡ true };

    // LOOKING

    fn view_name(&self, n: u64) -> Option<NameView>
        ensures { (w : Word) → (state self.now).contents.word n ≡ some w → NameSays (state self.now).contents w result };

    fn view_type(&self, n: u64) -> Option<TypeView>
        ensures { (a : Ty) → (state self.now).contents.typ n ≡ some a → TypeSays (state self.now).contents a result };

    fn view_types(&self, n: u64) -> Option<ListView>
        ensures { (bs : Tys) → (state self.now).contents.types n ≡ some bs → TypesSays (state self.now).contents bs result };

    fn view_term(&self, n: u64) -> Option<TermView>
        ensures { (t : Tm) → (state self.now).contents.term n ≡ some t → TermSays (state self.now).contents t result };

    fn view_terms(&self, n: u64) -> Option<ListView>
        ensures { (ts : List Tm) → (state self.now).contents.terms n ≡ some ts → TermsSays (state self.now).contents ts result };

    // How many nodes what a number stands for takes as a tree, capped at the largest word. It takes no time: terms that share can be
    // trees of astronomical size.
    fn size(&self, n: u64) -> u64
        ensures typ { (a : Ty) → (state self.now).contents.typ n ≡ some a → result ≡ capped (nodes_ty a) }
        ensures types { (bs : Tys) → (state self.now).contents.types n ≡ some bs → result ≡ capped (nodes_tys bs) }
        ensures term { (t : Tm) → (state self.now).contents.term n ≡ some t → result ≡ capped (nodes_tm t) }
        ensures terms { (ts : List Tm) → (state self.now).contents.terms n ≡ some ts → result ≡ capped (nodes_tms ts) };

    // MARK AND RELEASE

    // A mark of all that is kept now.
    fn mark(&self) -> u64
        ensures count { result ≡ (state self.now).count }
        ensures contents { (state self.now).at result ≡ (state self.now).contents }
        ensures left { (state self.now).left_at result ≡ (state self.now).left };

    // Gives back all that was built since the mark. Numbers that were made since stand for nothing any more.
    fn release(&mut self, m: u64)
        ensures { m ≤ (state self.old).count → state self.new ≡ back m (state self.old) };
}
