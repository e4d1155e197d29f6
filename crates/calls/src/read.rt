// Commands read from text.
ghost use Rattle.std.specs.Prelude.{◌≡◌, ℕ, ◌<◌, IfSome, IfOk, MatchResult, ◌≢◌};
ghost use Rattle.std.specs.Char.{digit_char};
ghost use Rattle.calls.specs.Texts.{byte_text, command_text};
ghost use Rattle.calls.specs.declared.unread.Unread.TheVariants.{NoCommand};

use crate::command::{Command, Opening};
use crate::line::{Arc, Line};
use crate::unread::Unread;
use std::alloc::{AllocError, Global};

// The first word of a text, and what follows the space after it.
fn first_word(text: &str) -> Result<(&str, &str), Unread> {
    text.split_once(' ').ok_or(Unread::NoCommand)
}

fn read_pair(text: &str) -> Result<(usize, usize), Unread> {
    let (first, second) = first_word(text)?;
    Ok((first.parse()?, second.parse()?))
}

fn read_arc(text: &str) -> Result<Arc, Unread> {
    let (direction, ends) = first_word(text)?;
    let (from, to) = read_pair(ends)?;
    Ok(Arc {
        direction: direction.parse()?,
        from,
        to,
    })
}

// The value of a lower-case hexadecimal digit; the library's `to_digit` takes capitals too.
fn read_digit(digit: u8) -> Result<u8, Unread>
    ensures { MatchResult result (λ value. (value < 16) × (digit_char value ≡ digit)) (λ e. (e ≡ NoCommand) × ((d : ℕ) → d < 16 → digit_char d ≢ digit)) }
{
    match char::from(digit).to_digit(16) {
        Some(value) if !digit.is_ascii_uppercase() => Ok(value as u8),
        _ => Err(Unread::NoCommand),
    }
}

// The byte whose two digits these are.
fn read_byte(digits: &[u8]) -> Result<u8, Unread>
    ensures { MatchResult result (λ byte. byte_text byte ≡ digits.now) (λ e. (e ≡ NoCommand) × ((byte : ℕ) → byte < 256 → byte_text byte ≢ digits.now)) }
{
    let [high, low] = digits else {
        return Err(Unread::NoCommand);
    };
    Ok(read_digit(*high)? * 16 + read_digit(*low)?)
}

fn read_bytes(heap: Global, text: &str) -> Result<Vec<u8>, Unread> {
    if text == "-" {
        return Ok(Vec::new(heap));
    }
    text.as_bytes().chunks(2).map(read_byte).try_collect(heap)
}

fn read_lay(heap: Global, text: &str) -> Result<Line, Unread> {
    let (points, cells) = first_word(text)?;
    let (across, up) = first_word(cells)?;
    Ok(Line::Lay {
        points: points.parse()?,
        across: read_bytes(heap, across)?,
        up: read_bytes(heap, up)?,
    })
}

// A match over the words, and no table: each is followed by arguments of its own.
fn read_line(heap: Global, word: &str, text: &str) -> Result<Line, Unread> {
    match word {
        "add" => Ok(Line::Add(read_arc(text)?)),
        "strike" => Ok(Line::Strike(read_arc(text)?)),
        "arc" => Ok(Line::Arc(read_arc(text)?)),
        "apart" => {
            let (row, column) = read_pair(text)?;
            Ok(Line::Apart { row, column })
        }
        "draft" => Ok(Line::Draft {
            points: text.parse()?,
        }),
        "lay" => read_lay(heap, text),
        _ => Err(Unread::NoCommand),
    }
}

fn read_opening(heap: Global, text: &str) -> Result<Opening, Unread> {
    let (number, rest) = first_word(text)?;
    let (shape, turns) = first_word(rest)?;
    let number = number.parse()?;
    let turns = turns.parse()?;
    let shape = read_bytes(heap, shape)?;
    Ok(Opening {
        number,
        shape,
        turns,
    })
}

// What a text may stand for; another text may be read as the same command.
fn read_loosely(heap: Global, text: &str) -> Result<Command, Unread> {
    let (word, rest) = first_word(text)?;
    match word {
        "case" => Ok(Command::Case(read_opening(heap, rest)?)),
        _ => Ok(Command::Call(read_line(heap, word, rest)?)),
    }
}

// The command whose text this is: no two texts are read as one command.
fn read_exactly(heap: Global, text: &str) -> Result<Command, Unread>
    ensures { IfOk result (λ command. command_text command ≡ text.now) }
{
    let command = read_loosely(heap, text)?;
    let printed = format!(in heap; "{command}")?;
    if printed.as_str() != text {
        return Err(Unread::NoCommand);
    }
    Ok(command)
}

// The command whose text this is, if it is found.
pub fn read(heap: Global, text: &str) -> Result<Option<Command>, AllocError>
    ensures { IfOk result (λ o. IfSome o (λ command. command_text command ≡ text.now)) }
{
    match read_exactly(heap, text) {
        Ok(command) => Ok(Some(command)),
        Err(Unread::NoCommand) => Ok(None),
        Err(Unread::Memory(error)) => Err(error),
    }
}
