// Where the loop that builds types anew stands, and what waits on its stack.
ghost use Rattle.rebuild_types.specs.Codes.{Decodes};

// What comes next: go down into a type or a list of types; go up with what was built; or it is the whole.
#[derive(Clone, Copy, Debug, PartialEq, Eq)]
pub enum Turn {
    DownType(u64),
    DownTypes(u64),
    Up(u64),
    End(u64),
}

// What waits for the part at hand: a named type for its arguments (kept: its name), a list for its first type (kept: the rest, to be
// done), or a list for its rest (kept: its first type, done).
#[derive(Clone, Copy, Debug, PartialEq, Eq)]
pub enum Wait {
    Arguments,
    Head,
    Tail,
}

// What waits, by the word that stands for it on a stack, `wait as u64`. Any other word stands for the last.
impl From<u64> for Wait {
    ghost from_gives = { Decodes };

    fn from(word: u64) -> Wait {
        if word == Wait::Arguments as u64 {
            Wait::Arguments
        } else if word == Wait::Head as u64 {
            Wait::Head
        } else {
            Wait::Tail
        }
    }
}
