// What the arguments ask for.
use std::{env, io};

#[derive(Drop)]
pub enum Task {
    Help,
    Count(String),
}

// One argument, a file's name or --help; None where there is another number of them.
pub fn asked(rt: &HostRuntime) -> io::Result<Option<Task>> {
    let mut args = env::args(rt)?;
    let _program = args.next();
    let (Some(name), None) = (args.next(), args.next()) else {
        return Ok(None);
    };
    match name.as_str() {
        "--help" => Ok(Some(Task::Help)),
        _ => Ok(Some(Task::Count(name))),
    }
}
