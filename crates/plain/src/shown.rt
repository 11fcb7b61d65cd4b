// How a node is shown: by functions, and not by `TryFrom`, as nodes and views are both types of other crates.
ghost use Rattle.std.specs.Prelude.{◌≡◌};
ghost use Rattle.plain.specs.Shown.{name_shown, type_shown, types_shown, term_shown, terms_shown};

use nodes::kind::Kind;
use nodes::node::Node;
use store::view::{ListView, NameView, TermView, TypeView};

pub fn as_name(node: Node) -> Option<NameView>
    ensures { result ≡ name_shown node.kind node.x node.y }
{
    match node.kind {
        Kind::Byte if node.x < 256 => Some(NameView::Byte(node.x as u8, node.y)),
        _ => None,
    }
}

pub fn as_type(node: Node) -> Option<TypeView>
    ensures { result ≡ type_shown node.kind node.x node.y }
{
    match node.kind {
        Kind::TypeVariable => Some(TypeView::Variable(node.x)),
        Kind::TypeNamed => Some(TypeView::Named(node.x, node.y)),
        _ => None,
    }
}

pub fn as_types(node: Node) -> Option<ListView>
    ensures { result ≡ types_shown node.kind node.x node.y }
{
    match node.kind {
        Kind::TypeCell => Some(ListView::Cons(node.x, node.y)),
        _ => None,
    }
}

pub fn as_term(node: Node) -> Option<TermView>
    ensures { result ≡ term_shown node.kind node.x node.y }
{
    match node.kind {
        Kind::Free => Some(TermView::Free(node.x, node.y)),
        Kind::Bound => Some(TermView::Bound(node.x)),
        Kind::Constant => Some(TermView::Constant(node.x, node.y)),
        Kind::Apply => Some(TermView::Apply(node.x, node.y)),
        Kind::Lambda => Some(TermView::Lambda(node.x, node.y)),
        _ => None,
    }
}

pub fn as_terms(node: Node) -> Option<ListView>
    ensures { result ≡ terms_shown node.kind node.x node.y }
{
    match node.kind {
        Kind::TermCell => Some(ListView::Cons(node.x, node.y)),
        _ => None,
    }
}
