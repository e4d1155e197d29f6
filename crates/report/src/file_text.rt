// What a shape file's bytes come to as text.
ghost use Rattle.std.specs.Prelude.{◌≡◌, IfOk, string_bytes};
ghost use Rattle.std.specs.Fn.{FnOnceReturnsAtMut};
ghost use Rattle.shape.specs.Formats.Format.{shape_record, old_sheet};
ghost use Rattle.report.specs.Files.{BeginsWithO, FileText, WholeText, OutcomeText};

use crate::place_text::least_text;
use crate::refusal_text::RefusalLine;
use crate::shape_text::ShapeText;
use shape::old_sheet::OldSheet;
use shape::record::ShapeRecord;
use shape::refusal::Refusal;
use shape::source::ShapeSource;
use std::alloc::{AllocError, Global};

// The text on a source, and then its least coordinates.
fn whole_text<S: ShapeSource>(heap: Global, source: &S) -> Result<String, AllocError>
    ensures { IfOk result (λ t. WholeText (S.ShapeSource.shape source.now) (string_bytes t)) }
{
    let shape = ShapeText { source };
    let least = least_text(source);
    format!(in heap; "{shape}{least}")
}

// The text on a source that is filled by reading, or the line of the refusal.
fn outcome_text<S: ShapeSource + Drop, R: FnOnce(&mut S) -> Result<(), Refusal>>(
    heap: Global,
    mut source: S,
    read: R,
) -> Result<String, AllocError>
    requires { R.IsAlwaysCallable read }
    ensures { (outcome : _) × (filled : S) × FnOnceReturnsAtMut R.FnOnce read source outcome filled × IfOk result (λ t. OutcomeText outcome (S.ShapeSource.shape filled) (string_bytes t)) }
{
    match read(&mut source) {
        Ok(()) => whole_text(heap, &source),
        Err(refusal) => RefusalLine { refusal }.to_string(heap),
    }
}

// The text on the shape that a file's bytes define, whichever of the two formats they have, or the line of their refusal.
pub fn file_text(heap: Global, file: &[u8]) -> Result<String, AllocError>
    ensures an_old_sheet { BeginsWithO file.now → IfOk result (λ t. FileText old_sheet file.now (string_bytes t)) }
    ensures any_other { (BeginsWithO file.now → ⊥) → IfOk result (λ t. FileText shape_record file.now (string_bytes t)) }
{
    if file.first() == Some(&b'O') {
        outcome_text(heap, OldSheet::new(), |sheet| sheet.read(file))
    } else {
        outcome_text(heap, ShapeRecord::new(), |record| record.read(file))
    }
}
