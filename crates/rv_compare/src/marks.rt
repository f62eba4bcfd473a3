// The marks of the lines, or none of them.
ghost use Rattle.std.specs.Prelude.{◌≡◌, ◌≤◌, length, replicate};
ghost use Rattle.rv_gate.specs.declared.circuit.Mark.TheVariants.{Input};
ghost use Rattle.rv_gate.specs.Marks.{input_count, output_count, takes_input};
ghost use Rattle.rv_gate.specs.declared.word.TheConstants.{MOST_LINES};
ghost use Rattle.rv_compare.specs.Compare.{asked, asked_perm, constants_asked, garbage_asked};

use rv_gate::{Circuit, MOST_LINES, Mark};
use rv_perm::PermSpec;

// Each line takes a bit of the input.
static INPUTS: [Mark; MOST_LINES as usize] = [Mark::Input; MOST_LINES as usize];

// No line is garbage.
static OUTPUTS: [bool; MOST_LINES as usize] = [false; MOST_LINES as usize];

// So many lines that each take a bit of the input.
pub(crate) fn inputs_of(count: usize) -> &'static [Mark]
    requires { count ≤ MOST_LINES }
    ensures { result.now ≡ replicate count Input }
{
    &INPUTS[..count]
}

// What is put in on each line; with `all` a bit of the input.
fn constants_asked(all: bool, constants: &[Mark]) -> &[Mark]
    requires { length constants.now ≤ MOST_LINES }
    ensures value { result.now ≡ constants_asked all constants.now }
    ensures few { length result.now ≤ MOST_LINES }
{
    if all {
        &INPUTS[..constants.len()]
    } else {
        constants
    }
}

// Of each line, whether its output is left out; with `all` none is.
fn garbage_asked(all: bool, garbage: &[bool]) -> &[bool]
    requires { length garbage.now ≤ MOST_LINES }
    ensures value { result.now ≡ garbage_asked all garbage.now }
    ensures few { length result.now ≤ MOST_LINES }
{
    if all {
        &OUTPUTS[..garbage.len()]
    } else {
        garbage
    }
}

// What is put in on the lines of a circuit.
pub(crate) fn constants_of(circuit: &Circuit, all: bool) -> &[Mark]
    ensures value { result.now ≡ (asked all circuit.now).constants }
    ensures few { length result.now ≤ MOST_LINES }
{
    circuit.recall_invariant();
    constants_asked(all, circuit.constant_row())
}

// Which outputs of a circuit are left out.
pub(crate) fn garbage_of(circuit: &Circuit, all: bool) -> &[bool]
    ensures value { result.now ≡ (asked all circuit.now).garbage }
    ensures few { length result.now ≤ MOST_LINES }
{
    circuit.recall_invariant();
    garbage_asked(all, circuit.garbage_row())
}

// What is put in on the lines of a permutation.
pub(crate) fn perm_constants(spec: &PermSpec, all: bool) -> &[Mark]
    ensures { result.now ≡ (asked_perm all spec.now).constants }
{
    spec.recall_invariant();
    constants_asked(all, spec.constants())
}

// Which outputs of a permutation are left out.
pub(crate) fn perm_garbage(spec: &PermSpec, all: bool) -> &[bool]
    ensures { result.now ≡ (asked_perm all spec.now).garbage }
{
    spec.recall_invariant();
    garbage_asked(all, spec.garbage_marks())
}

// Whether a line takes a bit of the input.
pub(crate) fn takes_input(mark: Mark) -> bool
    ensures { result ≡ takes_input mark }
{
    matches!(mark, Mark::Input)
}

// How many lines take a bit of the input.
pub(crate) fn inputs_in(marks: &[Mark]) -> u8
    requires { length marks.now ≤ MOST_LINES }
    ensures value { result ≡ input_count marks.now }
    ensures within { result ≤ length marks.now }
{
    marks.iter().filter(|mark| takes_input(**mark)).count() as u8
}

// How many lines aren't garbage.
pub(crate) fn outputs_in(garbage: &[bool]) -> u8
    requires { length garbage.now ≤ MOST_LINES }
    ensures value { result ≡ output_count garbage.now }
    ensures within { result ≤ length garbage.now }
{
    garbage.iter().filter(|is_garbage| !**is_garbage).count() as u8
}

/// How many bits the function of a circuit takes; with `all`, how many lines there are.
pub fn input_count(circuit: &Circuit, all: bool) -> u8
    ensures value { result ≡ input_count (asked all circuit.now).constants }
    ensures few { result ≤ MOST_LINES }
{
    inputs_in(constants_of(circuit, all))
}

// How many bits the function of a circuit gives.
pub(crate) fn output_count(circuit: &Circuit, all: bool) -> u8
    ensures value { result ≡ output_count (asked all circuit.now).garbage }
    ensures few { result ≤ MOST_LINES }
{
    outputs_in(garbage_of(circuit, all))
}
