// The line on which an S-expression begins, for messages.
ghost use Rattle.std.specs.Prelude.{◌≡◌, ◌+◌, ◌^◌, ◌<◌, ◌≤◌, length};
ghost use Rattle.reader.specs.Next.{stands};
ghost use Rattle.reader.specs.Lines.{deeper, StartSays, LineSays};

use crate::tokens::{LINE_FEED, Token, Tokens, skip};

// How many brackets are open behind the token.
fn depth_behind(token: Token, depth: usize) -> usize
    requires { depth + 1 < 2 ^ 64 }
    ensures { result ≡ deeper (stands token.entry) depth }
{
    match token {
        Token::Open => depth + 1,
        Token::Close => depth.saturating_sub(1),
        Token::Word(_) => depth,
    }
}

// Where the S-expression with the number n begins, of those outside of all brackets, from 1; some place where there is none.
fn start_of(text: &[u8], n: usize) -> usize
    ensures says { StartSays text.now n result }
    ensures within { result ≤ length text.now }
{
    let mut tokens = Tokens::new(text);
    let mut depth = 0;
    let mut begun = 0;
    loop {
        let ahead = skip(tokens.rest);
        if depth == 0 {
            begun += 1;
            if begun == n {
                return text.len() - ahead.len();
            }
        }
        match tokens.next() {
            Some(token) => depth = depth_behind(token, depth),
            None => return text.len(),
        }
    }
}

// The line, from 1, on which the S-expression with the number n begins.
pub fn line_of(text: &[u8], n: usize) -> usize
    ensures { LineSays text.now n result }
{
    let before = &text[..start_of(text, n)];
    1 + before.iter().filter(|byte| **byte == LINE_FEED).count()
}
