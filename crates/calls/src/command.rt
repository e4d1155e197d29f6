// What one line of a replay's text says.
ghost use Rattle.std.specs.Prelude.{Some};
ghost use Rattle.calls.specs.Texts.{opening_text, command_text};

use crate::hex::Hex;
use crate::line::Line;
use std::fmt;

// What a case begins with: its number, the bytes of a shape file, and how many quarters the shape is turned.
#[derive(Drop)]
pub struct Opening {
    pub number: usize,
    pub shape: Vec<u8>,
    pub turns: usize,
}

#[derive(Drop)]
pub enum Command {
    // a fresh board over the shape
    Case(Opening),
    // a call on the board of the case
    Call(Line),
}

impl fmt::Display for Opening {
    ghost output = { λ o. Some (opening_text o) };

    fn fmt<W: fmt::Write>(&self, f: &mut fmt::Formatter<W>) -> fmt::Result {
        let number = self.number;
        let shape = Hex { bytes: &self.shape };
        let turns = self.turns;
        write!(f, "case {number} {shape} {turns}")
    }
}

impl fmt::Display for Command {
    ghost output = { λ c. Some (command_text c) };

    fn fmt<W: fmt::Write>(&self, f: &mut fmt::Formatter<W>) -> fmt::Result {
        match self {
            Command::Case(opening) => write!(f, "{opening}"),
            Command::Call(line) => write!(f, "{line}"),
        }
    }
}
