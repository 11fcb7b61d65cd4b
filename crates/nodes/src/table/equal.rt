// Comparing what two numbers stand for, in the words held back behind the nodes.
ghost use Rattle.std.specs.Prelude.{◌≡◌, ℕ, ◌*◌, ◌/◌, ◌≤◌, true, false, ◌≢◌, length, take};
ghost use Rattle.store.specs.State.{Stays};
ghost use Rattle.nodes.specs.Comparing.{Agree, RestSays, Same};
ghost use Rattle.nodes.specs.Items.{Item, Holds, Alike};
ghost use Rattle.nodes.specs.Meaning.{items, state_of};
ghost use Rattle.nodes.specs.Table.{rows, all_rows};

use crate::node::Node;
use crate::pair::{Pair, Rest};
use crate::table::access::node_of;
use crate::table::{NODE, Nodes};
use lent::stack::Stack;

// Whether the nodes c and d of a pair agree in all but the parts that are numbers of nodes. A part that is no smaller than its number
// stands for nothing.
fn agree(pair: Pair, c: Node, d: Node) -> bool
    ensures holds { result ≡ true → Agree pair.a c pair.b d }
    ensures fails { result ≡ false → Agree pair.a c pair.b d → ⊥ }
{
    if c.kind != d.kind || c.size != d.size || c.y >= pair.a || d.y >= pair.b {
        return false;
    }
    if c.kind.first_is_node() {
        c.x < pair.a && d.x < pair.b
    } else {
        c.x == d.x
    }
}

// What is left to compare of two numbers that differ, in a table of these words; None if their nodes do not agree.
fn rest(words: &[u64], pair: Pair) -> Option<Rest>
    requires { pair.a ≢ pair.b }
    ensures { RestSays (items (all_rows words.now)) (length words.now / 4) pair result }
{
    let c = node_of(words, pair.a)?;
    let d = node_of(words, pair.b)?;
    if !agree(pair, c, d) {
        return None;
    }
    let second = Pair { a: c.y, b: d.y };
    if c.kind.first_is_node() {
        Some(Rest::Both(Pair { a: c.x, b: d.x }, second))
    } else {
        Some(Rest::Second(second))
    }
}

// Whether two numbers stand for the same, in a table whose first nodes are in use. Pairs that are still to be compared lie on a stack in
// the words behind these.
fn same(words: &mut [u64], used: usize, m: u64, n: u64) -> bool
    requires { 6 * used ≤ length words.old }
    ensures kept { take (4 * used) words.new ≡ take (4 * used) words.old }
    ensures sound { result ≡ true → items (rows words.old used) m ≡ items (rows words.old used) n }
    ensures complete { Same (items (rows words.old used)) m n → result ≡ true }
{
    let (nodes, free) = words.split_at_mut(NODE * used);
    let mut pairs = Stack::new(free);
    let mut pair = Pair { a: m, b: n };
    loop {
        if pair.a != pair.b {
            match rest(nodes, pair) {
                None => return false,
                Some(Rest::Second(second)) => pair = second,
                Some(Rest::Both(first, second)) => {
                    // There is room: two words are held back for each node.
                    pairs.push_all(&[first.a, first.b]).unwrap();
                    pair = second;
                }
            }
        } else {
            match pairs.pop_pair() {
                None => return true,
                Some((b, a)) => pair = Pair { a, b },
            }
        }
    }
}

impl Nodes<'_> {
    // Whether two numbers stand for the same.
    pub fn equal(&mut self, m: u64, n: u64) -> bool
        ensures stays { Stays (state_of self.old) (state_of self.new) }
        ensures sound { result ≡ true → Alike (state_of self.old).contents m n }
        ensures complete { (i : Item) → Holds (state_of self.old).contents m i → Holds (state_of self.old).contents n i → result ≡ true }
    {
        same(self.words, self.used, m, n)
    }
}
