// The line that is printed for a file.
ghost use Rattle.std.specs.Prelude.{Some};
ghost use Rattle.check_file.specs.Lines.{line};

use reader::Fault;
use std::fmt;

#[derive(Clone, Copy)]
pub struct Verdict(pub Result<usize, Fault>);

impl fmt::Display for Verdict {
    ghost output = { λ v. Some (line v.0) };

    fn fmt<W: fmt::Write>(&self, f: &mut fmt::Formatter<W>) -> fmt::Result {
        match self.0 {
            Ok(commands) => write!(f, "{commands} commands"),
            Err(Fault::Broken) => write!(f, "broken"),
        }
    }
}
