// The lines that a decomposition adds.
ghost use Rattle.std.specs.Prelude.{◌≡◌, ◌≢◌, ◌+◌, ◌<◌, ◌≤◌, ◌++◌, ◌∷◌, ◌&&◌, [], not, nat_lt, length, Contains, IfOk};
ghost use Rattle.std.specs.Prelude.{OnOk, Ok, Err};
ghost use Rattle.rv_gate.specs.Circuit.{fresh};
ghost use Rattle.rv_gate.specs.Names.{IsName, numbered};
ghost use Rattle.rv_mct.specs.Widened.{added_names, is_taken, widened};
ghost use Rattle.rv_mct.specs.inside.Marking.{line_marked};

use rv_gate::{Circuit, LabelFault, MOST_LINES, Mark, NameFault, Names};
use std::alloc::{AllocError, Global};

// Names one more line.
fn add_name(names: &mut Names, name: &[u8]) -> Result<(), AllocError>
    requires name { IsName name.now }
    requires free { ¬ Contains names.old name.now }
    requires room { length names.old < MOST_LINES }
    ensures { OnOk result (names.new ≡ names.old ++ name.now ∷ []) }
{
    match names.push(name) {
        Ok(()) => Ok(()),
        Err(NameFault::Mem) => Err(AllocError),
        Err(NameFault::NotAName) => unreachable!(),
        Err(NameFault::Taken(_)) => unreachable!(),
        Err(NameFault::TooMany) => unreachable!(),
    }
}

fn is_taken(names: &Names, name: &[u8]) -> bool
    ensures { result ≡ is_taken names.now name.now }
{
    names.find(name).is_some()
}

// Whether there are too few names yet, and this one is free.
fn is_wanted(wide: &Names, lines: u8, names: &Names, name: &[u8]) -> bool
    ensures { result ≡ (nat_lt (length wide.now) lines && not (is_taken names.now name.now)) }
{
    wide.len() < lines && !is_taken(names, name)
}

// The names, and after them those of so many added lines.
fn widened_names(alloc: Global, names: &Names, extra: u8) -> Result<Names, AllocError>
    requires { length names.now + extra ≤ MOST_LINES }
    ensures { IfOk result (λ wide. wide ≡ names.now ++ added_names names.now extra) }
{
    let spare = Names::numbered(alloc, b'z', MOST_LINES)?;
    with_spare(names, &spare, extra)
}

// The names, and after them so many of the spare ones that are free.
fn with_spare(names: &Names, spare: &Names, extra: u8) -> Result<Names, AllocError>
    requires few { length names.now + extra ≤ MOST_LINES }
    requires spare { spare.now ≡ numbered 122 MOST_LINES }
    ensures { IfOk result (λ wide. wide ≡ names.now ++ added_names names.now extra) }
{
    let lines = names.len() + extra;
    let mut wide = names.copy()?;
    for line in 0..spare.len() {
        let name = spare.name(line);
        if is_wanted(&wide, lines, names, name) {
            add_name(&mut wide, name)?;
        }
    }
    Ok(wide)
}

// Labels are labels, so memory alone can be wanting.
fn is_set(set: Result<(), LabelFault>) -> Result<(), AllocError>
    requires { set ≢ Err LabelFault.NotALabel }
    ensures { OnOk result (set ≡ Ok tt) }
{
    match set {
        Ok(()) => Ok(()),
        Err(LabelFault::Mem) => Err(AllocError),
        Err(LabelFault::NotALabel) => unreachable!(),
    }
}

// Gives a line the labels and the marks that it has in the circuit.
fn mark_line(wide: &mut Circuit, circuit: &Circuit, line: u8) -> Result<(), AllocError>
    requires wide { line < length wide.old.names }
    requires line { line < length circuit.now.names }
    ensures { OnOk result (wide.new ≡ line_marked circuit.now line wide.old) }
{
    // Its labels are labels.
    circuit.recall_invariant();
    wide.set_constant(line, circuit.constant(line));
    wide.set_garbage(line, circuit.garbage(line));
    is_set(wide.set_input_label(line, circuit.input_label(line)))?;
    is_set(wide.set_output_label(line, circuit.output_label(line)))
}

/// The circuit's lines, and so many more, without gates.
pub(crate) fn widened(alloc: Global, circuit: &Circuit, extra: u8) -> Result<Circuit, AllocError>
    requires { length circuit.now.names + extra ≤ MOST_LINES }
    ensures { IfOk result (λ wide. wide ≡ widened circuit.now extra) }
{
    circuit.recall_invariant();
    let names = widened_names(alloc, circuit.names(), extra)?;
    let mut wide = Circuit::new(names)?;
    mark_lines(&mut wide, circuit, extra)?;
    Ok(wide)
}

// Gives the circuit's lines their labels and marks, and the added ones theirs.
fn mark_lines(wide: &mut Circuit, circuit: &Circuit, extra: u8) -> Result<(), AllocError>
    requires few { length circuit.now.names + extra ≤ MOST_LINES }
    requires fresh { wide.old ≡ fresh (circuit.now.names ++ added_names circuit.now.names extra) }
    ensures { OnOk result (wide.new ≡ widened circuit.now extra) }
{
    let lines = circuit.line_count();
    for line in 0..lines {
        mark_line(wide, circuit, line)?;
    }
    for line in lines..lines + extra {
        wide.set_constant(line, Mark::Zero);
        wide.set_garbage(line, true);
    }
    Ok(())
}
