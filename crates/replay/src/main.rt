// Reads calls on boards from standard input, one a line, and prints each again with its answer.
#![tactic(auto)]

mod case;
mod playing;

use calls::command::Command;
use calls::commands::{Commands, Numbered, ReadError};
use case::Case;
use playing::{play, unreadable};
use std::io;
use std::process::ExitCode;

fn unread(error: ReadError) -> anyhow::Error {
    match error {
        ReadError::Unreadable { line } => unreadable(line, "it is no call in the format"),
        ReadError::Memory(error) => error.into(),
    }
}

// Plays each case when the next begins, and the last at the end.
fn run(rt: &HostRuntime) -> anyhow::Result<()> {
    let text = io::read_to_string(rt.alloc(), rt.stdin())?;
    let mut current: Option<Case> = None;
    for read in Commands::new(rt.alloc(), text.as_str()) {
        let Numbered { line, command } = read.map_err(unread)?;
        match command {
            Command::Case(opening) => {
                let next = Case::new(rt.alloc(), line, opening);
                if let Some(case) = current.replace(next) {
                    play(rt, &case)?;
                }
            }
            Command::Call(call) => match &mut current {
                Some(case) => case.calls.push(call)?,
                None => return Err(unreadable(line, "no case stands before it")),
            },
        }
    }
    match current {
        Some(case) => play(rt, &case),
        None => Ok(()),
    }
}

// Whether the sentence could be written makes no difference to the status.
fn main(rt: HostRuntime) -> ExitCode {
    match run(&rt) {
        Ok(_) => ExitCode::SUCCESS,
        Err(error) => {
            let _ = eprintln!(rt; "replay: {error}");
            ExitCode::FAILURE
        }
    }
}
