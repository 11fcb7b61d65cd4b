// The tokens of a text one after another, from left to right: brackets and words.
ghost use Rattle.std.specs.Prelude.{◌≡◌, length, take, drop};
ghost use Rattle.std.specs.Iterator.{at_most};
ghost use Rattle.std.specs.List.{prefix_len};
ghost use Rattle.hol.specs.Text.{in_words};
ghost use Rattle.reader.specs.Next.{stream, SkipTo, CommentTo, NextSays, PeekSays};

pub use crate::kind::Kind;

#[derive(Clone, Copy)]
pub enum Token<'a> {
    Open,
    Close,
    Word(&'a [u8]),
}

// The tokens of the bytes that are ahead.
#[derive(Clone, Copy)]
pub struct Tokens<'a> {
    pub rest: &'a [u8],
}

// What ends a comment.
pub(crate) const LINE_FEED: u8 = b'\n';

// What is behind the comment that goes on with the text: behind the first line feed.
fn behind_comment(text: &[u8]) -> &[u8]
    ensures { CommentTo text.now result.now }
{
    match text.iter().position(|byte| *byte == LINE_FEED) {
        Some(end) => &text[end + 1..],
        None => &[],
    }
}

// How many bytes from the first on stand in words.
fn word_length(text: &[u8]) -> usize
    ensures { result ≡ prefix_len in_words text.now }
{
    text.iter()
        .take_while(|byte| matches!(Kind::from(**byte), Kind::Letter))
        .count()
}

// The word that the text begins with, and what is behind it.
fn first_word(text: &[u8]) -> (&[u8], &[u8])
    ensures word { result.0.now ≡ take (prefix_len in_words text.now) text.now }
    ensures behind { result.1.now ≡ drop (prefix_len in_words text.now) text.now }
{
    text.split_at(word_length(text))
}

// What is behind the blanks and comments that the text begins with.
pub(crate) fn skip(mut text: &[u8]) -> &[u8]
    ensures { SkipTo text.now result.now }
{
    while let [byte, behind @ ..] = text {
        match Kind::from(*byte) {
            Kind::Blank => text = behind,
            Kind::Comment => text = behind_comment(behind),
            _ => return text,
        }
    }
    text
}

impl<'a> Tokens<'a> {
    // All tokens of `text`.
    pub fn new(text: &'a [u8]) -> Tokens<'a>
        ensures { result.rest ≡ text.entry }
    {
        Tokens { rest: text }
    }

    // The next token, which stays ahead.
    pub fn peek(&self) -> Option<Token<'a>>
        ensures { PeekSays (stream self.now) result }
    {
        let mut ahead = *self;
        ahead.next()
    }
}

impl<'a> Iterator for Tokens<'a> {
    type Item = Token<'a>;

    ghost next_gives = { λ s r e. NextSays s e r };

    ghost remaining = { λ s. at_most (length s.rest.now) };

    // The next token, which is then behind.
    fn next(&mut self) -> Option<Token<'a>> {
        let text = skip(self.rest);
        let [byte, behind @ ..] = text else {
            return None;
        };
        let (token, behind) = match Kind::from(*byte) {
            Kind::Opening => (Token::Open, behind),
            Kind::Closing => (Token::Close, behind),
            _ => {
                let (word, behind) = first_word(text);
                (Token::Word(word), behind)
            }
        };
        self.rest = behind;
        Some(token)
    }
}
