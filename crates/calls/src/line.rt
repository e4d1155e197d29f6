// A line of a board's log: a call with its arguments.
ghost use Rattle.std.specs.Prelude.{Some};
ghost use Rattle.calls.specs.Texts.{arc_text, line_text};

use crate::hex::Hex;
use std::fmt;

// An arc as a call names it, by any three numbers.
#[derive(Clone, Copy, Debug, PartialEq, Eq)]
pub struct Arc {
    pub direction: usize,
    pub from: usize,
    pub to: usize,
}

#[derive(Drop)]
pub enum Line {
    Add(Arc),
    Strike(Arc),
    // whether the arc is in force
    Arc(Arc),
    // how a row and a column lie to each other
    Apart {
        row: usize,
        column: usize,
    },
    // how many records the points memory has
    Draft {
        points: usize,
    },
    // likewise, and the cells of the two flow memories
    Lay {
        points: usize,
        across: Vec<u8>,
        up: Vec<u8>,
    },
}

impl fmt::Display for Arc {
    ghost output = { λ arc. Some (arc_text arc) };

    fn fmt<W: fmt::Write>(&self, f: &mut fmt::Formatter<W>) -> fmt::Result {
        let Arc {
            direction,
            from,
            to,
        } = self;
        write!(f, "{direction} {from} {to}")
    }
}

impl fmt::Display for Line {
    ghost output = { λ l. Some (line_text l) };

    fn fmt<W: fmt::Write>(&self, f: &mut fmt::Formatter<W>) -> fmt::Result {
        match self {
            Line::Add(arc) => write!(f, "add {arc}"),
            Line::Strike(arc) => write!(f, "strike {arc}"),
            Line::Arc(arc) => write!(f, "arc {arc}"),
            Line::Apart { row, column } => write!(f, "apart {row} {column}"),
            Line::Draft { points } => write!(f, "draft {points}"),
            Line::Lay { points, across, up } => {
                let across = Hex { bytes: across };
                let up = Hex { bytes: up };
                write!(f, "lay {points} {across} {up}")
            }
        }
    }
}
