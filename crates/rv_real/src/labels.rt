ghost use Rattle.std.specs.Prelude.{◌≡◌, ◌≤◌, ◌<◌, ◌+◌, ℕ, Bool, List, [], ◌∷◌, ◌++◌, ◌&&◌, not, true, false, drop};
ghost use Rattle.std.specs.Prelude.{length, All, IfOk, OnOk};
ghost use Rattle.rv_text.specs.Tokens.{tokens_of};
ghost use Rattle.rv_text.specs.Spelled.{IsOneLine};
ghost use Rattle.rv_reader.specs.Gives.{StepGives};
ghost use Rattle.rv_reader.specs.inside.Answered.{GivesValue};
ghost use Rattle.rv_gate.specs.Circuit.{IsLabel};
ghost use Rattle.rv_gate.specs.inside.CircuitView.{labels_in};
ghost use Rattle.rv_gate.specs.declared.word.TheConstants.{MOST_LINES};
ghost use Rattle.rv_real.specs.Rules.{in_order};
ghost use Rattle.rv_real.specs.Header.{with_name, with_label, holds_quote};
ghost use Rattle.rv_real.specs.inside.HeaderSteps.{labels_for, names_for};

use crate::code::{REPEATED_LABEL, TOO_MANY_LINES, WRONG_LABEL_COUNT, WRONG_NAME};
use crate::words::has_other_count;
use rv_gate::{NameFault, Names};
use rv_reader::Stop;
use rv_text::token;
use std::alloc::Global;

fn push_name(names: &mut Names, name: &[u8], quoted: bool) -> Result<(), Stop>
    requires { length names.old < MOST_LINES }
    ensures gives { (closed : Bool)
        → StepGives result names.new
        (with_name names.old (record { bytes = name.now; quoted = quoted; closed = closed })) }
    ensures len { OnOk result (length names.new ≡ length names.old + 1) }
{
    if quoted {
        return Err(Stop::Fault(WRONG_NAME));
    }
    match names.push(name) {
        Ok(()) => Ok(()),
        Err(NameFault::NotAName) => Err(Stop::Fault(WRONG_NAME)),
        Err(NameFault::Taken(_)) => Err(Stop::Fault(REPEATED_LABEL)),
        Err(NameFault::TooMany) => Err(Stop::Fault(TOO_MANY_LINES)),
        Err(NameFault::Mem) => Err(Stop::Mem),
    }
}

// Adds the names from a place on.
fn push_names(names: &mut Names, line: &[u8], from: usize) -> Result<(), Stop>
    requires none { names.old ≡ [] }
    requires from { from ≤ length line.now }
    requires few { length (tokens_of true [] (drop from line.now)) ≤ MOST_LINES }
    ensures gives { StepGives result names.new (in_order with_name [] (tokens_of true [] (drop from line.now))) }
    ensures len { OnOk result (length names.new ≡ length (tokens_of true [] (drop from line.now))) }
{
    let mut at = from;
    while let Some(found) = token(line, at, true, &[]) {
        let name = &line[found.start..found.end];
        if let Err(stop) = push_name(names, name, found.quoted) {
            return Err(stop);
        }
        at = found.after();
    }
    Ok(())
}

// The names from a place on.
fn read_names(alloc: Global, line: &[u8], from: usize) -> Result<Names, Stop>
    requires from { from ≤ length line.now }
    requires few { length (tokens_of true [] (drop from line.now)) ≤ MOST_LINES }
    ensures gives { GivesValue (λ names. names) result
        (in_order with_name [] (tokens_of true [] (drop from line.now))) }
    ensures len { IfOk result (λ names. length names ≡ length (tokens_of true [] (drop from line.now))) }
{
    let mut names = Names::new(alloc);
    match push_names(&mut names, line, from) {
        Ok(()) => Ok(names),
        Err(stop) => Err(stop),
    }
}

// One name for each line, from a place on.
pub(crate) fn names_for(alloc: Global, lines: u8, line: &[u8], from: usize) -> Result<Names, Stop>
    requires from { from ≤ length line.now }
    requires few { lines ≤ MOST_LINES }
    ensures gives { GivesValue (λ names. names) result (names_for lines (tokens_of true [] (drop from line.now))) }
    ensures len { IfOk result (λ names. length names ≡ lines) }
{
    if has_other_count(line, from, lines) {
        return Err(Stop::Fault(WRONG_LABEL_COUNT));
    }
    read_names(alloc, line, from)
}

fn holds_quote(bytes: &[u8]) -> bool
    ensures { result ≡ holds_quote bytes.now }
{
    bytes.iter().any(|&byte| byte == b'"')
}

fn push_label(
    labels: &mut Vec<Vec<u8>>,
    alloc: Global,
    label: &[u8],
    quoted: bool,
) -> Result<(), Stop>
    ensures gives { (closed : Bool)
        → StepGives result (labels_in labels.new)
        (with_label (labels_in labels.old) (record { bytes = label.now; quoted = quoted; closed = closed })) }
    ensures items { OnOk result (labels_in labels.new ≡ labels_in labels.old ++ label.now ∷ []) }
    ensures quote { OnOk result ((not quoted && holds_quote label.now) ≡ false) }
{
    if !quoted && holds_quote(label) {
        return Err(Stop::Fault(WRONG_NAME));
    }
    let own = Vec::from_slice(alloc, label)?;
    labels.push(own)?;
    Ok(())
}

// The labels from a place on.
fn read_labels(alloc: Global, line: &[u8], from: usize) -> Result<Vec<Vec<u8>>, Stop>
    requires from { from ≤ length line.now }
    requires one { IsOneLine line.now }
    ensures gives { GivesValue labels_in result (in_order with_label [] (tokens_of true [] (drop from line.now))) }
    ensures len { IfOk result (λ labels. length (labels_in labels) ≡ length (tokens_of true [] (drop from line.now))) }
    ensures labels { IfOk result (λ labels. All IsLabel (labels_in labels)) }
{
    let mut labels = Vec::new(alloc);
    let mut at = from;
    while let Some(found) = token(line, at, true, &[]) {
        let label = &line[found.start..found.end];
        if let Err(stop) = push_label(&mut labels, alloc, label, found.quoted) {
            return Err(stop);
        }
        at = found.after();
    }
    Ok(labels)
}

// One label for each line, from a place on.
pub(crate) fn labels_for(
    alloc: Global,
    lines: u8,
    line: &[u8],
    from: usize,
) -> Result<Vec<Vec<u8>>, Stop>
    requires from { from ≤ length line.now }
    requires one { IsOneLine line.now }
    ensures gives { GivesValue labels_in result (labels_for lines (tokens_of true [] (drop from line.now))) }
    ensures len { IfOk result (λ labels. length (labels_in labels) ≡ lines) }
    ensures labels { IfOk result (λ labels. All IsLabel (labels_in labels)) }
{
    if has_other_count(line, from, lines) {
        return Err(Stop::Fault(WRONG_LABEL_COUNT));
    }
    read_labels(alloc, line, from)
}
