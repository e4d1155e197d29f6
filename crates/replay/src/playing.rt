// A case is played on a board over its turned shape, and printed with the answers.
use crate::case::Case;
use anyhow::anyhow;
use calls::command::Opening;
use replaying::replay;
use shape::old_sheet::OldSheet;
use shape::record::ShapeRecord;
use shape::source::ShapeSource;
use shape::turned::Turned;

// What is said of a line that cannot be read.
pub(crate) fn unreadable(line: usize, why: &str) -> anyhow::Error {
    anyhow!("line {line} cannot be read: {why}")
}

fn play_over<S: ShapeSource>(rt: &HostRuntime, source: &S, case: &Case) -> anyhow::Result<()> {
    let Case { opening, calls, .. } = case;
    let answers = replay(rt.alloc(), source, calls)?;
    println!(rt; "{opening}")?;
    for (call, answer) in calls.iter().zip(answers.iter()) {
        println!(rt; "{call} = {answer}")?;
    }
    Ok(())
}

// The one kind of file and then the other: what is common is two lines, and a function for both, which would take the reading as a closure, is longer.
pub(crate) fn play(rt: &HostRuntime, case: &Case) -> anyhow::Result<()> {
    let Opening { shape, turns, .. } = &case.opening;
    let mut record = ShapeRecord::new();
    if record.read(shape).is_ok() {
        return play_over(rt, &Turned::new(record, *turns), case);
    }
    let mut sheet = OldSheet::new();
    if sheet.read(shape).is_ok() {
        return play_over(rt, &Turned::new(sheet, *turns), case);
    }
    Err(unreadable(case.line, "its shape is refused"))
}
