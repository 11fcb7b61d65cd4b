// The table's functions: making it, adding a node, reading one, giving back.
ghost use Rattle.std.specs.Prelude.{◌≡◌, ℕ, ◌+◌, ◌-◌, ◌*◌, ◌/◌, ◌≤◌, length};
ghost use Rattle.nodes.specs.Table.{Puts, all_rows, rows_of};
ghost use Rattle.nodes.specs.Meaning.{state_of, made, IsMade, Gets, Sized};
ghost use Rattle.std.proofs.Math.Option.{some};
ghost use Rattle.nodes.specs.Items.{Item, tree_size};
ghost use Rattle.store.specs.Builds.{Builds};
ghost use Rattle.store.specs.State.{back};

use crate::kind::Kind;
use crate::node::Node;
use crate::table::{EMPTY, NODE, Nodes, SHARE};

// The node of a number, in a table of these words.
pub(super) fn node_of(words: &[u64], n: u64) -> Option<Node>
    ensures { Gets (all_rows words.now) n result }
{
    if n == EMPTY || n > (words.len() / NODE) as u64 {
        return None;
    }
    let at = NODE * (n as usize - 1);
    Some(Node {
        kind: Kind::try_from(words[at]).ok()?,
        x: words[at + 1],
        y: words[at + 2],
        size: words[at + 3],
    })
}

impl Nodes<'_> {
    // An empty table in these words: there is room for a node in every six.
    pub fn new(words: &mut [u64]) -> Nodes<'_>
        ensures left { (state_of result).left ≡ length words.old / 6 }
        ensures count { (state_of result).count ≡ 0 }
    {
        Nodes { words, used: 0 }
    }

    // How many nodes there are.
    pub fn count(&self) -> u64
        ensures { result ≡ (state_of self.now).count }
    {
        self.used as u64
    }

    // How many more there is room for.
    pub fn left(&self) -> usize
        ensures { result ≡ (state_of self.now).left }
    {
        self.words.len() / SHARE - self.used
    }

    // Writes a node behind the others, and gives its number.
    fn push(&mut self, node: Node) -> Option<u64>
        ensures { Puts self.old self.new node result }
    {
        if self.left() == 0 {
            return None;
        }
        let at = NODE * self.used;
        self.words[at] = node.kind as u64;
        self.words[at + 1] = node.x;
        self.words[at + 2] = node.y;
        self.words[at + 3] = node.size;
        self.used += 1;
        Some(self.count())
    }

    // The node of a number.
    pub fn get(&self, n: u64) -> Option<Node>
        ensures { Gets (rows_of self.now) n result }
    {
        node_of(&self.words[..NODE * self.used], n)
    }

    // The size of what a number stands for.
    pub fn tree_size(&self, n: u64) -> u64
        ensures { Sized (state_of self.now).contents n result }
    {
        self.get(n).map_or(0, |node| node.size)
    }

    // The size of what a node would stand for: one more than its parts.
    fn size_of(&self, kind: Kind, x: u64, y: u64) -> u64
        ensures { (i : Item) → made (state_of self.now).contents kind x y ≡ some i → result ≡ tree_size i }
    {
        let rest = self.tree_size(y).saturating_add(1);
        if kind.counts_first() {
            rest.saturating_add(self.tree_size(x))
        } else {
            rest
        }
    }

    // Adds a node of this kind and with these parts, and gives its number.
    pub fn put(&mut self, kind: Kind, x: u64, y: u64) -> Option<u64>
        ensures { Builds 1 (state_of self.old) (state_of self.new) (IsMade kind x y) result }
    {
        let size = self.size_of(kind, x, y);
        self.push(Node { kind, x, y, size })
    }

    // Gives back all nodes but the first m.
    pub fn give_back(&mut self, m: u64)
        ensures { m ≤ (state_of self.old).count → state_of self.new ≡ back m (state_of self.old) }
    {
        if m < self.count() {
            self.used = m as usize;
        }
    }
}
