// Texts and their counts.
use crate::tokens::{Token, Tokens};
use crate::{Fault, count, line_of};
use std::alloc::{AllocError, Global};
use std::test::Fail;

#[test]
fn counts(rt: HostRuntime) {
    assert_eq!(rt; count(b""), Ok(0));
    assert_eq!(rt; count(b"(a)(b)"), Ok(2));
    assert_eq!(rt; count(b"a b (c d) e"), Ok(4));
    assert_eq!(rt; count(b"a(b)c"), Ok(3));
    assert_eq!(rt; count(b"a;b\nc"), Ok(2));
}

#[test]
fn finds_unmatched_brackets(rt: HostRuntime) {
    assert_eq!(rt; count(b"("), Err(Fault::Broken));
    assert_eq!(rt; count(b")("), Err(Fault::Broken));
    assert_eq!(rt; count(b"a;b(\n)"), Err(Fault::Broken));
}

#[test]
fn ends_comments_at_a_line_feed_only(rt: HostRuntime) {
    assert_eq!(rt; count(b";(\r(\n()"), Ok(1));
    assert_eq!(rt; count(b"();("), Ok(1));
}

#[test]
fn takes_any_other_byte_for_a_letter(rt: HostRuntime) {
    assert_eq!(rt; count(b"\0\0 \x7f\xff"), Ok(2));
    assert_eq!(rt; count(b"a\tb\rc\nd"), Ok(4));
}

// So many opening brackets, then so many closing ones.
fn nested(heap: Global, opening: usize, closing: usize) -> Result<Vec<u8>, AllocError> {
    let mut text = Vec::new(heap);
    for _ in 0..opening {
        text.push(b'(')?;
    }
    for _ in 0..closing {
        text.push(b')')?;
    }
    Ok(text)
}

#[test]
fn takes_brackets_of_any_depth(rt: HostRuntime) -> Result<(), Fail> {
    let text = nested(rt.alloc(), 100_000, 100_000)?;
    assert_eq!(rt; count(text.as_slice()), Ok(1));
    let text = nested(rt.alloc(), 100_000, 99_999)?;
    assert_eq!(rt; count(text.as_slice()), Err(Fault::Broken));
    Ok(())
}

// The tokens of a text, each with a blank behind it.
fn spaced(heap: Global, text: &[u8]) -> Result<Vec<u8>, AllocError> {
    let mut out = Vec::new(heap);
    for token in Tokens::new(text) {
        match token {
            Token::Open => out.push(b'(')?,
            Token::Close => out.push(b')')?,
            Token::Word(word) => out.extend_from_slice(word)?,
        }
        out.push(b' ')?;
    }
    Ok(out)
}

#[test]
fn gives_tokens_in_order(rt: HostRuntime) -> Result<(), Fail> {
    let out = spaced(rt.alloc(), b"a;b(\n(c)")?;
    assert_eq!(rt; out.as_slice(), b"a ( c ) ".as_slice());
    let out = spaced(rt.alloc(), b"(a\r);\r(\n\tb")?;
    assert_eq!(rt; out.as_slice(), b"( a ) b ".as_slice());
    Ok(())
}

// The length of the word that the text begins with, or 0.
fn first_word(text: &[u8]) -> usize {
    match Tokens::new(text).peek() {
        Some(Token::Word(word)) => word.len(),
        _ => 0,
    }
}

#[test]
fn takes_every_other_byte_into_a_word(rt: HostRuntime) -> Result<(), Fail> {
    let mut text = Vec::new(rt.alloc());
    for byte in 0..=255u8 {
        match byte {
            b' ' | b'\n' | b'\r' | b'\t' | b';' | b'(' | b')' => {}
            _ => text.push(byte)?,
        }
    }
    assert_eq!(rt; first_word(text.as_slice()), 249);
    Ok(())
}

#[test]
fn takes_words_of_any_length(rt: HostRuntime) -> Result<(), Fail> {
    let mut text = Vec::new(rt.alloc());
    for _ in 0..1_000_000 {
        text.push(b'a')?;
    }
    assert_eq!(rt; first_word(text.as_slice()), 1_000_000);
    Ok(())
}

#[test]
fn finds_lines(rt: HostRuntime) {
    let text = b"a\n;(\n(b\n c) d";
    assert_eq!(rt; line_of(text, 1), 1);
    assert_eq!(rt; line_of(text, 2), 3);
    assert_eq!(rt; line_of(text, 3), 4);
}
