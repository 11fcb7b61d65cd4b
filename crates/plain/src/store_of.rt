// The table of nodes as a store.
ghost use Rattle.nodes.specs.Meaning.{state_of};

use crate::Plain;
use crate::shown::{as_name, as_term, as_terms, as_type, as_types};
use nodes::kind::Kind;
use nodes::table::EMPTY;
use store::Store;
use store::view::{ListView, NameView, TermView, TypeView};

impl Store for Plain<'_, '_> {
    ghost state = { λ s. state_of s.nodes.now };

    fn empty(&self) -> u64 {
        EMPTY
    }

    fn name(&mut self, w: &[u8]) -> Option<u64> {
        self.nodes.name(w)
    }

    fn letter(&mut self, w: &[u8]) -> Option<u64> {
        self.nodes.letter(w)
    }

    fn type_variable(&mut self, name: u64) -> Option<u64> {
        self.nodes.put(Kind::TypeVariable, name, EMPTY)
    }

    fn type_named(&mut self, name: u64, args: u64) -> Option<u64> {
        self.nodes.put(Kind::TypeNamed, name, args)
    }

    fn cons_type(&mut self, a: u64, rest: u64) -> Option<u64> {
        self.nodes.put(Kind::TypeCell, a, rest)
    }

    fn free(&mut self, name: u64, a: u64) -> Option<u64> {
        self.nodes.put(Kind::Free, name, a)
    }

    fn bound(&mut self, k: u64) -> Option<u64> {
        self.nodes.put(Kind::Bound, k, EMPTY)
    }

    fn constant(&mut self, name: u64, args: u64) -> Option<u64> {
        self.nodes.put(Kind::Constant, name, args)
    }

    fn apply(&mut self, f: u64, x: u64) -> Option<u64> {
        self.nodes.put(Kind::Apply, f, x)
    }

    fn lambda(&mut self, a: u64, t: u64) -> Option<u64> {
        self.nodes.put(Kind::Lambda, a, t)
    }

    fn cons_term(&mut self, t: u64, rest: u64) -> Option<u64> {
        self.nodes.put(Kind::TermCell, t, rest)
    }

    fn same(&mut self, s: u64, t: u64) -> bool {
        self.nodes.equal(s, t)
    }

    fn same_type(&mut self, a: u64, b: u64) -> bool {
        self.nodes.equal(a, b)
    }

    fn same_name(&mut self, v: u64, w: u64) -> bool {
        self.nodes.equal(v, w)
    }

    fn view_name(&self, n: u64) -> Option<NameView> {
        if n == EMPTY {
            return Some(NameView::Empty);
        }
        as_name(self.nodes.get(n)?)
    }

    fn view_type(&self, n: u64) -> Option<TypeView> {
        as_type(self.nodes.get(n)?)
    }

    fn view_types(&self, n: u64) -> Option<ListView> {
        if n == EMPTY {
            return Some(ListView::Nil);
        }
        as_types(self.nodes.get(n)?)
    }

    fn view_term(&self, n: u64) -> Option<TermView> {
        as_term(self.nodes.get(n)?)
    }

    fn view_terms(&self, n: u64) -> Option<ListView> {
        if n == EMPTY {
            return Some(ListView::Nil);
        }
        as_terms(self.nodes.get(n)?)
    }

    fn size(&self, n: u64) -> u64 {
        self.nodes.tree_size(n)
    }

    fn mark(&self) -> u64 {
        self.nodes.count()
    }

    fn release(&mut self, m: u64) {
        self.nodes.give_back(m);
    }
}
