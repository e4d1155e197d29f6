// A case of the text: a shape, and the calls on a board over it.
ghost use Rattle.std.specs.Prelude.{◌≡◌, []};

use calls::command::Opening;
use calls::line::Line;
use std::alloc::Global;

#[derive(Drop)]
pub(crate) struct Case {
    // the number of its line in the text, counted from 1
    pub line: usize,
    pub opening: Opening,
    pub calls: Vec<Line>,
}

impl Case {
    // A case without calls yet.
    pub(crate) fn new(heap: Global, line: usize, opening: Opening) -> Case
        ensures line { result.line ≡ line }
        ensures opening { result.opening ≡ opening }
        ensures calls { result.calls.items ≡ [] }
    {
        Case {
            line,
            opening,
            calls: Vec::new(heap),
        }
    }
}
