// check FILE: prints how many commands stand in a file, or that its brackets do not match.
#![tactic(auto)]

mod failure;
mod task;
mod verdict;

use failure::Failure;
use reader::{Fault, count};
use std::fs;
use std::process::ExitCode;
use task::Task;
use verdict::Verdict;

const USAGE: &str = "usage: check FILE";

// The status is 1 where brackets do not match.
fn check_file(rt: &HostRuntime, name: String) -> Result<ExitCode, Failure> {
    let text = fs::read(rt, name.as_str()).map_err(|e| Failure::Input(name, e))?;
    let verdict = Verdict(count(text.as_slice()));
    println!(rt; "{verdict}").map_err(Failure::Output)?;
    match verdict.0 {
        Ok(_) => Ok(ExitCode::SUCCESS),
        Err(Fault::Broken) => Ok(ExitCode::FAILURE),
    }
}

fn run(rt: &HostRuntime) -> Result<ExitCode, Failure> {
    match task::asked(rt).map_err(Failure::Arguments)? {
        Some(Task::Count(name)) => check_file(rt, name),
        Some(Task::Help) => {
            println!(rt; "{USAGE}").map_err(Failure::Output)?;
            Ok(ExitCode::SUCCESS)
        }
        None => Err(Failure::Usage),
    }
}

fn main(rt: HostRuntime) -> ExitCode {
    match run(&rt) {
        Ok(status) => status,
        Err(failure) => {
            let _ = eprintln!(rt; "{failure}");
            ExitCode::FAILURE
        }
    }
}
