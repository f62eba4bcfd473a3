// The end of a text.
ghost use Rattle.std.specs.Prelude.{◌≡◌, length, replicate, false, Ok, Err, IfSome};
ghost use Rattle.std.specs.Option.{option_map};
ghost use Rattle.rv_reader.specs.Feeding.{Answers};
ghost use Rattle.rv_gate.specs.declared.circuit.Mark.TheVariants.{Input};
ghost use Rattle.rv_perm.specs.declared.fault.PermFault.TheVariants.{Mem as OutOfMemory};
ghost use Rattle.rv_perm.specs.inside.State.{row_kept};
ghost use Rattle.rv_perm.specs.inside.Steps.{row_checked, marks_or, with_marks, end_given};

use crate::code::WRONG_MARK_ROW;
use crate::fault::PermFault;
use crate::line::{Row, State};
use crate::perm::Perm;
use crate::places::lines_of;
use crate::spec::PermSpec;
use rv_gate::Mark;
use rv_reader::Whole;
use rv_text::TextFault;

// Whether a row that was given has one mark for each line.
fn check_row<M: Drop>(row: &Option<Row<M>>, lines: u8) -> Result<(), PermFault>
    ensures { result ≡ row_checked lines (option_map row_kept row.now) }
{
    match row {
        Some(row) => {
            if row.marks.len() == usize::from(lines) {
                Ok(())
            } else {
                Err(PermFault::Text(TextFault {
                    line: row.line,
                    code: WRONG_MARK_ROW,
                }))
            }
        }
        None => Ok(()),
    }
}

// Marks the inputs, one after another.
fn mark_constants(spec: &mut PermSpec, marks: &[Mark])
    requires lines { length marks.now ≡ spec.old.table.lines }
    requires entries { length spec.old.constants ≡ spec.old.table.lines }
    ensures { spec.new ≡ record spec.old { constants = marks.now } }
{
    for line in 0..spec.perm().lines() {
        spec.set_constant(line, marks[usize::from(line)]);
    }
}

// Marks the outputs, one after another.
fn mark_garbage(spec: &mut PermSpec, marks: &[bool])
    requires lines { length marks.now ≡ spec.old.table.lines }
    requires entries { length spec.old.garbage ≡ spec.old.table.lines }
    ensures { spec.new ≡ record spec.old { garbage = marks.now } }
{
    for line in 0..spec.perm().lines() {
        spec.set_garbage(line, marks[usize::from(line)]);
    }
}

// Marks the inputs, where marks were given.
fn give_constants(spec: &mut PermSpec, row: &Option<Row<Mark>>)
    requires lines { IfSome row.now (λ row. length row.marks.items ≡ spec.old.table.lines) }
    requires unmarked { spec.old.constants ≡ replicate spec.old.table.lines Input }
    ensures { spec.new
        ≡ record spec.old { constants = marks_or spec.old.table.lines Input (option_map row_kept row.now) } }
{
    if let Some(row) = row {
        mark_constants(spec, &row.marks);
    }
}

// Marks the outputs, where marks were given.
fn give_garbage(spec: &mut PermSpec, row: &Option<Row<bool>>)
    requires lines { IfSome row.now (λ row. length row.marks.items ≡ spec.old.table.lines) }
    requires unmarked { spec.old.garbage ≡ replicate spec.old.table.lines false }
    ensures { spec.new
        ≡ record spec.old { garbage = marks_or spec.old.table.lines false (option_map row_kept row.now) } }
{
    if let Some(row) = row {
        mark_garbage(spec, &row.marks);
    }
}

// The permutation with the marks that were given.
fn marked(perm: Perm, constants: &Option<Row<Mark>>, garbage: &Option<Row<bool>>) -> PermSpec
    requires constants { IfSome constants.now (λ row. length row.marks.items ≡ perm.lines) }
    requires garbage { IfSome garbage.now (λ row. length row.marks.items ≡ perm.lines) }
    ensures { result ≡ with_marks perm (option_map row_kept constants.now) (option_map row_kept garbage.now) }
{
    let mut spec = PermSpec::new(perm);
    give_constants(&mut spec, constants);
    give_garbage(&mut spec, garbage);
    spec
}

/// The permutation that the numbers and marks of a text give, or its first fault.
pub(crate) fn end_of(whole: Whole<State>) -> Result<PermSpec, PermFault>
    ensures { Answers OutOfMemory result (end_given whole) }
{
    let Whole { state, .. } = whole;
    let Some(lines) = lines_of(state.count as usize) else {
        return Err(PermFault::Length(state.count));
    };
    if let Err(fault) = check_row(&state.constants, lines) {
        return Err(fault);
    }
    if let Err(fault) = check_row(&state.garbage, lines) {
        return Err(fault);
    }
    match Perm::with_lines(state.alloc, lines, &state.numbers) {
        Ok(perm) => Ok(marked(perm, &state.constants, &state.garbage)),
        Err(fault) => Err(fault),
    }
}
