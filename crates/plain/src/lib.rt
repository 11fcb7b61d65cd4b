// The plain store: a table of nodes in lent words. It keeps every node that is built, and nothing is shared that was built apart.
#![tactic(auto)]

ghost use Rattle.std.specs.Prelude.{◌≡◌};
ghost use Rattle.nodes.specs.Meaning.{state_of};

mod shown;
mod store_of;

use nodes::table::Nodes;

// A table as a store.
#[derive(Drop)]
pub struct Plain<'a, 'w> {
    nodes: &'a mut Nodes<'w>,
}

impl<'a, 'w> Plain<'a, 'w> {
    // The store in this table, with all that the table holds.
    pub fn new(nodes: &'a mut Nodes<'w>) -> Plain<'a, 'w>
        ensures { state_of result.nodes.now ≡ state_of nodes.old }
    {
        Plain { nodes }
    }
}
