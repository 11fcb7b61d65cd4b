// What a stack does.
ghost use Rattle.std.specs.Prelude.{◌≡◌, [], ◌∷◌, length, reverse};
ghost use Rattle.std.specs.Fn.{CalledAtMut};
ghost use Rattle.lent.specs.Piles.{pile_of, free_words, cut, Pushes, Pops, PopsPair};

use super::Stack;
use crate::NoRoom;

impl<'w> Stack<'w> {
    // An empty stack in these words, which stay as they are.
    #[tactic(auto, unfolding(crate::specs::Piles::pile_of))]
    pub fn new(words: &'w mut [u64]) -> Stack<'w>
        ensures empty { pile_of result ≡ record { held = []; capacity = length words.old; name = words.entry.ghost_name } }
        ensures words { result.words.now ≡ words.old }
        ensures words_name { result.words.ghost_name ≡ words.entry.ghost_name }
    {
        Stack { words, len: 0 }
    }
}

impl Stack<'_> {
    // How many words are on the stack.
    #[tactic(auto, unfolding(crate::specs::Piles::pile_of))]
    pub fn len(&self) -> usize
        ensures { result ≡ length (pile_of self.now).held }
    {
        self.as_slice().len()
    }

    // The words on the stack, the oldest first.
    #[tactic(auto, unfolding(crate::specs::Piles::pile_of))]
    pub fn as_slice(&self) -> &[u64]
        ensures { reverse result.now ≡ (pile_of self.now).held }
    {
        &self.words[..self.len]
    }

    // One word onto the stack.
    #[tactic(auto, unfolding(crate::specs::Piles::pile_of))]
    pub fn push(&mut self, word: u64) -> Result<(), NoRoom>
        ensures cases { Pushes (word ∷ []) (pile_of self.old) (pile_of self.new) result }
        ensures words_name { self.new.words.ghost_name ≡ self.old.words.ghost_name }
    {
        if self.len >= self.words.len() {
            return Err(NoRoom);
        }
        self.words[self.len] = word;
        self.len += 1;
        Ok(())
    }

    // All of these words onto the stack, the last of them the newest; or none, if they have no place.
    #[tactic(auto, unfolding(crate::specs::Piles::pile_of))]
    pub fn push_all(&mut self, words: &[u64]) -> Result<(), NoRoom>
        ensures cases { Pushes words.now (pile_of self.old) (pile_of self.new) result }
        ensures words_name { self.new.words.ghost_name ≡ self.old.words.ghost_name }
    {
        if words.len() > self.words.len() - self.len {
            return Err(NoRoom);
        }
        let len = self.len + words.len();
        self.words[self.len..len].copy_from_slice(words);
        self.len = len;
        Ok(())
    }

    // The newest word off the stack.
    #[tactic(auto, unfolding(crate::specs::Piles::pile_of))]
    pub fn pop(&mut self) -> Option<u64>
        ensures cases { Pops (pile_of self.old) (pile_of self.new) result }
        ensures words_name { self.new.words.ghost_name ≡ self.old.words.ghost_name }
    {
        if self.len == 0 {
            return None;
        }
        self.len -= 1;
        Some(self.words[self.len])
    }

    // The newest word and the one below it off the stack, together; or neither, if there are not two.
    #[tactic(auto, unfolding(crate::specs::Piles::pile_of))]
    pub fn pop_pair(&mut self) -> Option<(u64, u64)>
        ensures cases { PopsPair (pile_of self.old) (pile_of self.new) result }
        ensures words_name { self.new.words.ghost_name ≡ self.old.words.ghost_name }
    {
        if self.len < 2 {
            return None;
        }
        self.len -= 2;
        Some((self.words[self.len + 1], self.words[self.len]))
    }

    // All but the n oldest words off the stack.
    #[tactic(auto, unfolding(crate::specs::Piles::pile_of))]
    pub fn truncate(&mut self, n: usize)
        ensures cases { pile_of self.new ≡ cut n (pile_of self.old) }
        ensures words_name { self.new.words.ghost_name ≡ self.old.words.ghost_name }
    {
        if n < self.len {
            self.len = n;
        }
    }

    // What `f` answers of the words that are free; what is on the stack stays. `f` is taken by `&mut` so that a caller knows what it
    // changed beside the words.
    #[tactic(auto, unfolding(crate::specs::Piles::pile_of))]
    pub fn above<R, F: FnMut(&mut [u64]) -> R>(&mut self, f: &mut F) -> R
        requires { (p : _) → p.now ≡ free_words self.old → F.pre f.old p }
        ensures cases { pile_of self.new ≡ pile_of self.old }
        ensures called { CalledAtMut F.FnMut f.old (free_words self.old) result f.new (free_words self.new) }
        ensures words_name { self.new.words.ghost_name ≡ self.old.words.ghost_name }
    {
        f(&mut self.words[self.len..])
    }
}
