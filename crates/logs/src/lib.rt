// What a board's log says: its lines, what is in force after them, and how each line is answered.
#![tactic(auto)]

pub mod pairing;
pub mod refusal;
pub mod spot;

ghost use Rattle.logs.specs.Answers.{AnsweredExactly};
ghost use Rattle.logs.specs.Promise.{AnswersKeepThePromise};

// How many answers a line has: one. It is a refusal exactly where the line is not accepted, and answers by the rules keep the whole promise.
pub fn answers_a_line() -> usize
    ensures exactly { AnsweredExactly }
    ensures promise { AnswersKeepThePromise result }
{
    let answers = 1;
    answers
}
