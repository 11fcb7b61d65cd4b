// What is kept of the bytes read so far, and what one more byte does to it.
ghost use Rattle.std.specs.Prelude.{◌≡◌, ◌+◌, ◌^◌, ◌<◌};
ghost use Rattle.reader.specs.Steps.{state, begun, opened, closed, lettered, after, StepSays, EndSays};

use crate::Fault;
use crate::kind::Kind;

// Where the reader stands: between words, in a word, or in a comment, which `;` begins and only a line feed ends.
#[derive(Clone, Copy)]
pub enum Mode {
    Gap,
    InWord,
    Comment,
}

// How many brackets are open, and how many words and brackets began outside of all brackets.
#[derive(Clone, Copy)]
pub struct Reader {
    mode: Mode,
    depth: usize,
    commands: usize,
}

impl Reader {
    // Before the first byte.
    pub fn new() -> Reader
        ensures { result ≡ state Mode.Gap 0 0 }
    {
        Reader {
            mode: Mode::Gap,
            depth: 0,
            commands: 0,
        }
    }

    // A word or a bracket begins: outside of all brackets it is one command more.
    fn begin(&mut self)
        requires { self.old.commands + 1 < 2 ^ 64 }
        ensures { self.new ≡ begun self.old }
    {
        if self.depth == 0 {
            self.commands += 1;
        }
    }

    // A bracket opens.
    fn open(&mut self)
        requires { (self.old.commands + 1 < 2 ^ 64) × (self.old.depth + 1 < 2 ^ 64) }
        ensures { self.new ≡ opened self.old }
    {
        self.begin();
        self.depth += 1;
        self.mode = Mode::Gap;
    }

    // A bracket closes: none may where none is open.
    fn close(&mut self) -> Result<(), Fault>
        ensures { StepSays (closed self.old) self.new result }
    {
        self.depth = self.depth.checked_sub(1).ok_or(Fault::Broken)?;
        self.mode = Mode::Gap;
        Ok(())
    }

    // A byte of a word, which begins with it unless the reader stands in one.
    fn letter(&mut self)
        requires { self.old.commands + 1 < 2 ^ 64 }
        ensures { self.new ≡ lettered self.old }
    {
        if let Mode::Gap = self.mode {
            self.begin();
            self.mode = Mode::InWord;
        }
    }

    // Reads one byte.
    pub fn step(&mut self, byte: u8) -> Result<(), Fault>
        requires { (self.old.commands + 1 < 2 ^ 64) × (self.old.depth + 1 < 2 ^ 64) }
        ensures { StepSays (after self.old byte) self.new result }
    {
        if let Mode::Comment = self.mode {
            if byte == b'\n' {
                self.mode = Mode::Gap;
            }
            return Ok(());
        }
        match Kind::from(byte) {
            Kind::Blank => self.mode = Mode::Gap,
            Kind::Comment => self.mode = Mode::Comment,
            Kind::Opening => self.open(),
            Kind::Closing => self.close()?,
            Kind::Letter => self.letter(),
        }
        Ok(())
    }

    // The end of the text: no bracket may be open.
    pub fn finish(&self) -> Result<usize, Fault>
        ensures { EndSays self.now result }
    {
        if self.depth == 0 {
            Ok(self.commands)
        } else {
            Err(Fault::Broken)
        }
    }
}
