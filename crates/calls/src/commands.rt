// The lines of a replay's text, read one after the other.
ghost use Rattle.std.specs.Prelude.{◌≡◌, length};
ghost use Rattle.std.specs.Iterator.{at_most};
ghost use Rattle.calls.specs.Steps.{FirstLine, Steps};

use crate::command::Command;
use crate::read::read;
use std::alloc::{AllocError, Global};

// A command, and the number of its line, counted from 1.
#[derive(Drop)]
pub struct Numbered {
    pub line: usize,
    pub command: Command,
}

// Why a line gives no command.
#[derive(Debug, Drop)]
pub enum ReadError {
    // it cannot be read; its number, counted from 1
    Unreadable { line: usize },
    Memory(AllocError),
}

#[derive(Drop)]
pub struct Commands<'a> {
    heap: Global,
    // what is not read yet
    rest: &'a str,
    // how many lines are read
    lines: usize,
}

// A text's first line without its newline, and what follows it.
fn first_line(text: &str) -> (&str, &str)
    ensures { FirstLine text.now result.0.now result.1.now }
{
    text.split_once('\n').unwrap_or((text, ""))
}

impl<'a> Commands<'a> {
    pub fn new(heap: Global, text: &'a str) -> Commands<'a>
        ensures rest { result.rest.now ≡ text.now }
        ensures lines { result.lines ≡ 0 }
        ensures heap { result.heap ≡ heap }
    {
        Commands {
            heap,
            rest: text,
            lines: 0,
        }
    }
}

impl<'a> Iterator for Commands<'a> {
    type Item = Result<Numbered, ReadError>;

    ghost next_gives = { λ before item after. Steps item before.rest.now before.lines after.rest.now after.lines };

    ghost remaining = { λ commands. at_most (length commands.rest.now) };

    // What the next line says.
    fn next(&mut self) -> Option<Result<Numbered, ReadError>> {
        if self.rest.is_empty() {
            return None;
        }
        let (text, rest) = first_line(self.rest);
        self.rest = rest;
        self.lines = self.lines.saturating_add(1);
        let line = self.lines;
        Some(match read(self.heap, text) {
            Ok(Some(command)) => Ok(Numbered { line, command }),
            Ok(None) => Err(ReadError::Unreadable { line }),
            Err(error) => Err(ReadError::Memory(error)),
        })
    }
}
