// Each test lends words to a table, and builds and looks in it through the trait.
use nodes::table::Nodes;
use plain::Plain;
use std::test::Fail;
use store::Store;
use store::view::{NameView, TermView, TypeView};
use trial::trial;

// A term of so many applications: of the function to bound variables in turn, or of bound variables to the argument.
fn nested<S: Store>(s: &mut S, leaf: u64, depth: u32, left: bool) -> Option<u64> {
    let mut t = s.bound(leaf)?;
    for _ in 0..depth {
        let x = s.bound(0)?;
        t = if left { s.apply(t, x)? } else { s.apply(x, t)? };
    }
    Some(t)
}

// Terms that were built apart are the same, and are not if one leaf differs.
fn deep<S: Store>(s: &mut S, left: bool) -> Option<bool> {
    let a = nested(s, 1, 100_000, left)?;
    let b = nested(s, 1, 100_000, left)?;
    let c = nested(s, 2, 100_000, left)?;
    Some(a != b && s.same(a, b) && !s.same(a, c) && s.size(a) == 200_001)
}

#[test]
fn deep_to_the_left(rt: HostRuntime) -> Result<(), Fail> {
    let mut words = vec![in rt.alloc(); 0u64; 4_000_000]?;
    let mut nodes = Nodes::new(&mut words);
    assert_eq!(rt; deep(&mut Plain::new(&mut nodes), true), Some(true));
    Ok(())
}

#[test]
fn deep_to_the_right(rt: HostRuntime) -> Result<(), Fail> {
    let mut words = vec![in rt.alloc(); 0u64; 4_000_000]?;
    let mut nodes = Nodes::new(&mut words);
    assert_eq!(rt; deep(&mut Plain::new(&mut nodes), false), Some(true));
    Ok(())
}

// Whether a name is viewed back byte by byte.
fn reads<S: Store>(s: &S, name: u64, bytes: &[u8]) -> bool {
    let mut n = name;
    for b in bytes {
        match s.view_name(n) {
            Some(NameView::Byte(c, rest)) if c == *b => n = rest,
            _ => return false,
        }
    }
    s.view_name(n) == Some(NameView::Empty)
}

fn all_bytes<S: Store>(s: &mut S) -> Option<bool> {
    let mut bytes = [0u8; 256];
    for b in 0..=u8::MAX {
        bytes[b as usize] = b;
    }
    let v = s.name(&bytes)?;
    let w = s.name(&bytes)?;
    Some(reads(s, v, &bytes) && s.same_name(v, w) && !reads(s, v, b"a"))
}

#[test]
fn name_of_all_bytes(rt: HostRuntime) -> Result<(), Fail> {
    let mut words = vec![in rt.alloc(); 0u64; 3_072]?;
    let mut nodes = Nodes::new(&mut words);
    assert_eq!(rt; all_bytes(&mut Plain::new(&mut nodes)), Some(true));
    Ok(())
}

// λ over the type variable 'a of its variable applied to x of that type: 6 nodes and 3 for the two names.
fn small<S: Store>(s: &mut S) -> Option<u64> {
    let a = s.letter(b"'a")?;
    let x = s.name(b"x")?;
    let v = s.free(x, a)?;
    let b = s.bound(0)?;
    let t = s.apply(b, v)?;
    s.lambda(a, t)
}

// Whether a number is viewed back as that term, part by part.
fn is_letter<S: Store>(s: &S, n: u64) -> bool {
    match s.view_type(n) {
        Some(TypeView::Variable(w)) => reads(s, w, b"'a"),
        _ => false,
    }
}

fn is_x<S: Store>(s: &S, n: u64, a: u64) -> bool {
    match s.view_term(n) {
        Some(TermView::Free(x, b)) => b == a && reads(s, x, b"x"),
        _ => false,
    }
}

fn is_applied<S: Store>(s: &S, n: u64, a: u64) -> bool {
    match s.view_term(n) {
        Some(TermView::Apply(b, v)) => s.view_term(b) == Some(TermView::Bound(0)) && is_x(s, v, a),
        _ => false,
    }
}

fn is_small<S: Store>(s: &S, n: u64) -> bool {
    match s.view_term(n) {
        Some(TermView::Lambda(a, t)) => is_letter(s, a) && is_applied(s, t, a),
        _ => false,
    }
}

// With so many words lent the answer is none or right, and it is right from the words of eight nodes on.
fn with_room<S: Store>(s: &mut S, words: usize) -> bool {
    match small(s) {
        Some(n) => 48 <= words && is_small(s, n) && s.size(n) == 6,
        None => words < 48,
    }
}

#[test]
fn few_words(rt: HostRuntime) -> Result<(), Fail> {
    for n in 0..60 {
        let mut words = vec![in rt.alloc(); 0u64; n]?;
        let mut nodes = Nodes::new(&mut words);
        assert!(rt; with_room(&mut Plain::new(&mut nodes), n));
    }
    Ok(())
}

// What was built since a mark is given back, and what was there before stays.
fn released<S: Store>(s: &mut S) -> Option<bool> {
    let a = small(s)?;
    let m = s.mark();
    let b = small(s)?;
    let full = s.bound(0) == None;
    s.release(m);
    let gone = s.view_term(b) == None;
    let c = small(s)?;
    Some(full && gone && b == c && s.same(a, c))
}

#[test]
fn releases(rt: HostRuntime) -> Result<(), Fail> {
    let mut words = vec![in rt.alloc(); 0u64; 96]?;
    let mut nodes = Nodes::new(&mut words);
    assert_eq!(rt; released(&mut Plain::new(&mut nodes)), Some(true));
    Ok(())
}

// The size of a term that is doubled so many times.
fn doubled<S: Store>(s: &mut S, times: u32) -> Option<u64> {
    let mut t = s.bound(0)?;
    for _ in 0..times {
        t = s.apply(t, t)?;
    }
    Some(s.size(t))
}

#[test]
fn sizes(rt: HostRuntime) -> Result<(), Fail> {
    let mut words = vec![in rt.alloc(); 0u64; 1_000]?;
    let mut nodes = Nodes::new(&mut words);
    let mut s = Plain::new(&mut nodes);
    assert_eq!(rt; doubled(&mut s, 10), Some(2_047));
    assert_eq!(rt; doubled(&mut s, 70), Some(u64::MAX));
    Ok(())
}

// Code that is proved over any store, run over this one: it needs twelve nodes, and no more.
#[test]
fn any_store(rt: HostRuntime) -> Result<(), Fail> {
    let mut words = vec![in rt.alloc(); 0u64; 72]?;
    let mut nodes = Nodes::new(&mut words);
    assert_eq!(rt; trial(&mut Plain::new(&mut nodes)), Some(true));
    let mut fewer = vec![in rt.alloc(); 0u64; 71]?;
    let mut nodes = Nodes::new(&mut fewer);
    assert_eq!(rt; trial(&mut Plain::new(&mut nodes)), None);
    Ok(())
}
