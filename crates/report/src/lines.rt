// Lines that are written one after the other.
ghost use Rattle.std.specs.Prelude.{◌≡◌, ℕ, ◌≤◌, List, Some, Option};
ghost use Rattle.std.specs.Fmt.{DisplaysOnOk, WritesOnOk};
ghost use Rattle.segments.specs.Shapes.{Point};
ghost use Rattle.report.specs.Parts.{each, line_or_none};

use shape::source::ShapeSource;
use std::fmt;

// The lines of a shape's points, by their numbers in order; a point may have none.
pub(crate) fn write_lines<
    W: fmt::Write,
    S: ShapeSource,
    L: fmt::Display + Drop,
    F: Fn(usize) -> Option<L>,
>(f: &mut fmt::Formatter<W>, source: &S, line_of: F) -> fmt::Result
    requires { F.IsAlwaysCallable line_of }
    ensures { (text : ℕ → List ℕ) → ((point : ℕ) (line : _) → Point (S.ShapeSource.shape source.now) point → F.post line_of point line → line_or_none L.output line ≡ Some (text point)) → WritesOnOk W.Write.write_str_gives f.old result (each (S.ShapeSource.shape source.now).points text) f.new }
{
    for point in 1..=source.points() {
        write_line(f, line_of(point))?;
    }
    Ok(())
}

fn write_line<W: fmt::Write, L: fmt::Display + Drop>(
    f: &mut fmt::Formatter<W>,
    line: Option<L>,
) -> fmt::Result
    ensures { DisplaysOnOk W.Write.write_str_gives f.old result (line_or_none L.output line) f.new }
{
    match line {
        Some(line) => write!(f, "{line}"),
        None => Ok(()),
    }
}
