// Runs the recorded shape files: each file's text, and one shape turned by quarters.
#![tactic(auto)]

use anyhow::anyhow;
use report::file_text::file_text;
use report::shape_text::ShapeText;
use shape::record::ShapeRecord;
use shape::turned::Turned;
use std::fs;

const CASES: &str = "cases.txt";

const TURNED: &str = "record_five.bin";

const MOST_TURNS: usize = 5;

// The text of one file, under its name.
fn trial(rt: &HostRuntime, name: &str) -> anyhow::Result<()> {
    let heap = rt.alloc();
    let path = format!(in heap; "{name}.bin")?;
    let file = fs::read(rt, path.as_str())?;
    let text = file_text(heap, file.as_slice())?;
    println!(rt; "== {name}")?;
    rt.print(text)?;
    Ok(())
}

// The text of a record turned by so many quarters.
fn turned_trial(rt: &HostRuntime, record: ShapeRecord, turns: usize) -> anyhow::Result<()> {
    let source = Turned::new(record, turns);
    println!(rt; "== record_five turned {turns}")?;
    rt.print(ShapeText { source: &source })?;
    Ok(())
}

fn turned_trials(rt: &HostRuntime) -> anyhow::Result<()> {
    let file = fs::read(rt, TURNED)?;
    let mut record = ShapeRecord::new();
    record
        .read(file.as_slice())
        .map_err(|_refusal| anyhow!("the shape to be turned was refused"))?;
    for turns in 0..=MOST_TURNS {
        turned_trial(rt, record, turns)?;
    }
    Ok(())
}

fn main(rt: HostRuntime) -> anyhow::Result<()> {
    let cases = fs::read_to_string(&rt, CASES)?;
    for name in cases.lines() {
        trial(&rt, name)?;
    }
    turned_trials(&rt)
}
