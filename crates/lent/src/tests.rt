// Stacks at work: filled to the last word, one above the other, and given back.
ghost use Rattle.std.specs.Prelude.{◌≡◌, ◌+◌, ◌-◌, ◌^◌, ◌<◌, ◌∷◌, length, replicate, slice_index, slice_set};
ghost use Rattle.lent.specs.Piles.{pile_of};

use crate::stack::Stack;

// How many of the words 0, 1, .. a stack in these words takes, up to `most`.
fn fill(words: &mut [u64], most: u64) -> u64 {
    let mut s = Stack::new(words);
    let mut n = 0;
    while n < most && s.push(n).is_ok() {
        n += 1;
    }
    n
}

// The same above a stack: what is on that stays.
fn fill_above(s: &mut Stack<'_>, most: u64) -> u64
    ensures same { pile_of s.new ≡ pile_of s.old }
    ensures words_name { s.new.words.ghost_name ≡ s.old.words.ghost_name }
{
    fill(&mut s.words[s.len..], most)
}

#[test]
fn newest_first(rt: HostRuntime) {
    let mut words = [0; 4];
    let mut s = Stack::new(&mut words);
    assert!(rt; s.push(7).is_ok());
    assert!(rt; s.push_all(&[8, 9]).is_ok());
    assert_eq!(rt; s.len(), 3);
    assert!(rt; s.push_all(&[1, 2]).is_err());
    assert_eq!(rt; s.pop_pair(), Some((9, 8)));
    assert_eq!(rt; s.pop_pair(), None);
    assert_eq!(rt; s.pop(), Some(7));
    assert_eq!(rt; s.pop(), None);
}

#[test]
fn nested(rt: HostRuntime) {
    let mut words = [0; 6];
    let mut below = Stack::new(&mut words);
    assert!(rt; below.push(4).is_ok());
    below.above(&mut |free: &mut [u64]| {
        let mut s = Stack::new(free);
        assert!(rt; s.push(5).is_ok());
        assert!(rt; s.push(6).is_ok());
        assert_eq!(rt; fill_above(&mut s, 100), 3);
        assert_eq!(rt; fill_above(&mut s, 2), 2);
        assert_eq!(rt; s.pop(), Some(6));
        assert_eq!(rt; s.pop(), Some(5));
    });
    assert_eq!(rt; below.len(), 1);
    assert_eq!(rt; below.pop(), Some(4));
}

// Words in which a stack was made are as they were, but for what was put on it.
fn untouched(words: &mut [u64])
    ensures { words.new ≡ words.old }
{
    let _ = Stack::new(words);
}

#[tactic(auto, unfolding(crate::specs::Piles::pile_of))]
fn put(words: &mut [u64], word: u64)
    requires { 0 < length words.old }
    ensures { slice_index words.new 0 ≡ word }
{
    let mut s = Stack::new(words);
    let _ = s.push(word);
}

// A word on a stack and one above it, among zeros: these are all the words; and what else was changed is known.
#[tactic(auto, using(crate::proofs::Words::free_length), unfolding(crate::specs::Piles::pile_of))]
fn put_both(words: &mut [u64], on: u64, above: u64, calls: &mut u64)
    requires words { 2 < length words.old }
    requires calls { calls.old + 1 < 2 ^ 64 }
    ensures words { words.new ≡ on ∷ slice_set (replicate (length words.old - 1) 0) 1 above }
    ensures calls { calls.new ≡ calls.old + 1 }
{
    let mut s = Stack::new(words);
    let _ = s.push(on);
    s.above(&mut |free: &mut [u64]| {
        free.fill(0);
        free[1] = above;
        *calls += 1;
    });
}

#[test]
fn given_back(rt: HostRuntime) {
    let mut words = [1, 2, 3];
    untouched(&mut words);
    assert_eq!(rt; words, [1, 2, 3]);
    put(&mut words, 7);
    assert_eq!(rt; words, [7, 2, 3]);
    let mut calls = 0;
    put_both(&mut words, 8, 9, &mut calls);
    assert_eq!(rt; words, [8, 0, 9]);
    assert_eq!(rt; calls, 1);
}
