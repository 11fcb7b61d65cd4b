// Making a table, and adding declarations to it.
ghost use Rattle.std.specs.Prelude.{◌≡◌, ◌+◌, ◌*◌, ◌<◌, [], length};
ghost use Rattle.std.proofs.Math.Option.{some};
ghost use Rattle.hol.specs.Syntax.{tyvar, fun, bool, w_a};
ghost use Rattle.hol.specs.Theory.{Theory};
ghost use Rattle.store.specs.State.{Contents};
ghost use Rattle.theory.specs.Knows.{count, Knows, Adds};

use super::Decls;
use crate::declaration::Declaration;
use crate::ground::Ground;
use lent::NoRoom;

impl<'a> Decls<'a> {
    // The table of the empty theory over these words.
    pub fn new(words: &'a mut [u64], ground: Ground) -> Decls<'a>
        ensures knows { (c : Contents) → c.typ ground.equality_type ≡ some (fun (tyvar w_a) (fun (tyvar w_a) bool)) → c.typ ground.choice_type ≡ some (fun (fun (tyvar w_a) bool) (tyvar w_a)) → Knows result c [] }
        ensures ground { result.ground ≡ ground }
        ensures used { result.used ≡ 0 }
        ensures words { result.words.now ≡ words.old }
        ensures words_name { result.words.ghost_name ≡ words.entry.ghost_name }
    {
        Decls {
            words,
            used: 0,
            ground,
        }
    }
}

impl Decls<'_> {
    // How many declarations there are.
    pub fn len(&self) -> usize
        ensures count { result ≡ count self.now }
        ensures knows { (c : Contents) (th : Theory) → Knows self.now c th → result ≡ length th }
    {
        self.used
    }

    // One declaration more.
    pub fn add(&mut self, declaration: Declaration) -> Result<(), NoRoom>
        ensures cases { Adds declaration self.old self.new result }
        ensures words_name { self.new.words.ghost_name ≡ self.old.words.ghost_name }
    {
        let at = 4 * self.used;
        if self.words.len() - at < 4 {
            return Err(NoRoom);
        }
        self.words[at..at + 4].copy_from_slice(&<[u64; 4]>::from(declaration));
        self.used += 1;
        Ok(())
    }
}
