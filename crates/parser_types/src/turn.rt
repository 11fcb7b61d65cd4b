// Where the loop that reads types stands, and what lies on its stack.
ghost use Rattle.parser_types.specs.Marks.{Decodes};

// What comes next: read a token; a bracket closed, and this list goes behind what was read in it; or the whole list was read.
#[derive(Clone, Copy, Debug, PartialEq, Eq)]
pub enum Turn {
    Next,
    Close(u64),
    End(u64),
}

// What a pair of words on the stack is: the name of a bracket that is open, or a type that was read in the newest one.
#[derive(Clone, Copy, Debug, PartialEq, Eq)]
pub enum Mark {
    Bracket,
    Argument,
}

// What a pair is, by its newer word, `mark as u64`. Any other word stands for the last.
impl From<u64> for Mark {
    ghost from_gives = { Decodes };

    fn from(word: u64) -> Mark {
        if word == Mark::Bracket as u64 {
            Mark::Bracket
        } else {
            Mark::Argument
        }
    }
}
