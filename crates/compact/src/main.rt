// Reads shape.bin and prints its rows, columns and arcs, or the line of its refusal.
#![tactic(auto)]

use report::file_text::file_text;
use std::fs;
use std::process::ExitCode;

const SHAPE: &str = "shape.bin";

fn run(rt: &HostRuntime) -> anyhow::Result<()> {
    let file = fs::read(rt, SHAPE)?;
    let text = file_text(rt.alloc(), file.as_slice())?;
    rt.print(text)?;
    Ok(())
}

// Whether the sentence could be written makes no difference to the status.
fn main(rt: HostRuntime) -> ExitCode {
    match run(&rt) {
        Ok(_) => ExitCode::SUCCESS,
        Err(error) => {
            let _ = eprintln!(rt; "compact: {SHAPE} cannot be read and reported: {error}");
            ExitCode::FAILURE
        }
    }
}
