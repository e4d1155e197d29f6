// Whole logs: their lines performed on a fresh board, each with its answer.
#![tactic(auto)]

ghost use Rattle.std.specs.Prelude.{◌≡◌, length, IfOk};
ghost use Rattle.logs.specs.Promise.{KeepsItsPromise};
ghost use Rattle.calls.specs.Meaning.{line_of, answer_of};
ghost use Rattle.replaying.specs.Replaying.{Performs, lines_of, answers_of};

use board::board::Board;
use calls::answer::Answer;
use calls::line::Line;
use logs::spot::Spot;
use shape::source::ShapeSource;
use std::alloc::{AllocError, Global};

// A points memory of so many records.
fn points_memory(heap: Global, points: usize) -> Result<Vec<Spot>, AllocError>
    ensures { IfOk result (λ places. length places.items ≡ points) }
{
    vec![in heap; Spot { x: 0, y: 0 }; points]
}

// One line, on the board as the lines before it left it.
fn perform(heap: Global, board: &mut Board, line: &Line) -> Result<Answer, AllocError>
    ensures { IfOk result (λ answer. Performs board.old (line_of line.now) (answer_of answer) board.new) }
{
    let outcome = match line {
        Line::Add(arc) => board
            .add(arc.direction, arc.from, arc.to)
            .map(|()| Answer::Done),
        Line::Strike(arc) => board
            .strike(arc.direction, arc.from, arc.to)
            .map(|()| Answer::Done),
        Line::Arc(arc) => board.arc(arc.direction, arc.from, arc.to).map(Answer::Told),
        Line::Apart { row, column } => board.apart(*row, *column).map(Answer::Paired),
        // Each drawing has a memory of its own; one closure over both calls would need clauses longer than these lines.
        Line::Draft { points } => {
            let mut places = points_memory(heap, *points)?;
            let total = board.draft(&mut places);
            total.map(|total| Answer::Drew { total, places })
        }
        Line::Lay { points, across, up } => {
            let mut places = points_memory(heap, *points)?;
            let total = board.lay(across, up, &mut places);
            total.map(|total| Answer::Drew { total, places })
        }
    };
    Ok(outcome.unwrap_or_else(Answer::Refused))
}

// Performs the lines of a log, in their order, on a fresh board over the source, and hands out an answer for each.
pub fn replay<S: ShapeSource>(
    heap: Global,
    source: &S,
    lines: &[Line],
) -> Result<Vec<Answer>, AllocError>
    ensures { IfOk result (λ answers. KeepsItsPromise (S.ShapeSource.shape source.now) (lines_of lines.now) (answers_of answers.items)) }
{
    let mut board = Board::over(source);
    let mut answers = Vec::new(heap);
    for line in lines {
        let answer = perform(heap, &mut board, line)?;
        answers.push(answer)?;
    }
    Ok(answers)
}
