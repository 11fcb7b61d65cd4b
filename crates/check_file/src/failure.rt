// Why there is no verdict.
use crate::USAGE;
use std::{fmt, io};

#[derive(Drop)]
pub enum Failure {
    Usage,
    Arguments(io::Error),
    Input(String, io::Error),
    Output(io::Error),
}

// What is said of it on standard error.
impl fmt::Display for Failure {
    fn fmt<W: fmt::Write>(&self, f: &mut fmt::Formatter<W>) -> fmt::Result {
        match self {
            Failure::Usage => write!(f, "{USAGE}"),
            Failure::Arguments(e) => write!(f, "check: arguments: {e}"),
            Failure::Input(name, e) => write!(f, "check: {name}: {e}"),
            Failure::Output(e) => write!(f, "check: standard output: {e}"),
        }
    }
}
