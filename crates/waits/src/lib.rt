// What waits on the stack of a loop that goes down into a term, and up with what comes of its parts.
#![tactic(auto)]

ghost use Rattle.waits.specs.Codes.{Decodes};

// What waits for the part at hand: an application for its function, an application for its argument, or a λ for its body.
#[derive(Clone, Copy, Debug, PartialEq, Eq)]
pub enum Wait {
    Function,
    Argument,
    Body,
}

// What waits, by the word that stands for it on a stack, `wait as u64`: lent memory is words, and cannot hold the enum itself. Any other
// word stands for the last.
impl From<u64> for Wait {
    ghost from_gives = { Decodes };

    fn from(word: u64) -> Wait {
        if word == Wait::Function as u64 {
            Wait::Function
        } else if word == Wait::Argument as u64 {
            Wait::Argument
        } else {
            Wait::Body
        }
    }
}
