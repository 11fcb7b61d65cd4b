// Names: a node for each byte, from the last to the first.
ghost use Rattle.std.specs.Prelude.{◌+◌, length};
ghost use Rattle.nodes.specs.Meaning.{state_of};
ghost use Rattle.store.specs.Builds.{Builds, IsWord, IsLetter};

use crate::kind::Kind;
use crate::table::{EMPTY, Nodes};

impl Nodes<'_> {
    // The name with these bytes.
    pub fn name(&mut self, w: &[u8]) -> Option<u64>
        ensures { Builds (length w.now) (state_of self.old) (state_of self.new) (IsWord w.now) result }
    {
        if self.left() < w.len() {
            return None;
        }
        let mut n = EMPTY;
        for byte in w.iter().rev() {
            n = self.put(Kind::Byte, *byte as u64, n)?;
        }
        Some(n)
    }

    // The type variable whose name has these bytes.
    pub fn letter(&mut self, w: &[u8]) -> Option<u64>
        ensures { Builds (1 + length w.now) (state_of self.old) (state_of self.new) (IsLetter w.now) result }
    {
        if self.left() <= w.len() {
            return None;
        }
        let n = self.name(w)?;
        self.put(Kind::TypeVariable, n, EMPTY)
    }
}
