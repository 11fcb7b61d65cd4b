// Counts the S-expressions of a text, or finds that its brackets do not match: one pass over the bytes, with a depth and no memory.
// `tokens` gives the tokens one after another, and `line_of` the line on which an S-expression begins.
#![tactic(auto)]

ghost use Rattle.reader.specs.Counts.{CountSays};

mod kind;
mod line;
mod state;
#[cfg(test)]
mod tests;
pub mod tokens;

pub use line::line_of;
use state::Reader;

// Why a text has no S-expressions: its brackets do not match.
#[derive(Clone, Copy, Debug, PartialEq, Eq)]
pub enum Fault {
    Broken,
}

// How many S-expressions stand in the text, outside of all brackets.
pub fn count(text: &[u8]) -> Result<usize, Fault>
    ensures { CountSays text.now result }
{
    let mut reader = Reader::new();
    for byte in text {
        reader.step(*byte)?;
    }
    reader.finish()
}
