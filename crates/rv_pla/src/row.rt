// The characters of a term.
ghost use Rattle.std.specs.Prelude.{◌≡◌, ◌≤◌, ◌<◌, ◌+◌, ◌*◌, ◌^◌, ℕ, List, drop, take, length, IfSome, if◌then◌else◌};
ghost use Rattle.std.specs.List.{list_all};
ghost use Rattle.rv_pla.specs.declared.cube.TheConstants.{MOST_INPUTS, MOST_OUTPUTS};
ghost use Rattle.rv_pla.specs.declared.row.TheConstants.{MOST_PLACES};
ghost use Rattle.rv_pla.specs.Row.{either, is_input, is_output, places_of};
ghost use Rattle.rv_pla.specs.inside.Written.{IsTermOf, IsWritten};

use crate::cube::Cube;
use crate::term::Term;

// What is a blank beside spaces and tabs.
pub(crate) const BAR: [u8; 1] = [b'|'];

// A set has a bit for each place.
const MOST_PLACES: u32 = u16::BITS;

// What the characters of an input part say: the inputs asked for, and those asked for a 1.
#[derive(Clone, Copy)]
struct Inputs {
    care: u16,
    want: u16,
    are_inputs: bool,
}

// What the characters of an output part say: the outputs with a 1, with a 0, and with a `-`.
#[derive(Clone, Copy)]
struct Outputs {
    ones: u16,
    zeros: u16,
    dashes: u16,
    are_outputs: bool,
}

fn is_input(c: u8) -> bool
    ensures { result ≡ is_input c }
{
    c == b'0' || c == b'1' || c == b'-' || c == b'2'
}

fn is_output(c: u8) -> bool
    ensures { result ≡ is_output c }
{
    c == b'0' || c == b'1' || c == b'-' || c == b'~' || c == b'2' || c == b'3' || c == b'4'
}

// The set, by one place more in front, at which one of two characters may stand.
fn with_place(set: u16, c: u8, a: u8, b: u8) -> u16
    requires { set < 2 ^ 15 }
    ensures { result ≡ (if either a b c then 1 else 0) + 2 * set }
{
    u16::from(c == a || c == b) + 2 * set
}

fn inputs_of(row: &[u8]) -> Inputs
    requires { length row.now ≤ MOST_PLACES }
    ensures care { result.care ≡ places_of 48 49 row.now }
    ensures want { result.want ≡ places_of 49 49 row.now }
    ensures are_inputs { result.are_inputs ≡ list_all is_input row.now }
{
    let mut care = 0;
    let mut want = 0;
    let mut are_inputs = true;
    let mut i = row.len();
    while i > 0 {
        i -= 1;
        let c = row[i];
        care = with_place(care, c, b'0', b'1');
        want = with_place(want, c, b'1', b'1');
        are_inputs = is_input(c) & are_inputs;
    }
    Inputs {
        care,
        want,
        are_inputs,
    }
}

fn outputs_of(row: &[u8]) -> Outputs
    requires { length row.now ≤ MOST_PLACES }
    ensures ones { result.ones ≡ places_of 49 52 row.now }
    ensures zeros { result.zeros ≡ places_of 48 48 row.now }
    ensures dashes { result.dashes ≡ places_of 45 50 row.now }
    ensures are_outputs { result.are_outputs ≡ list_all is_output row.now }
{
    let mut ones = 0;
    let mut zeros = 0;
    let mut dashes = 0;
    let mut are_outputs = true;
    let mut i = row.len();
    while i > 0 {
        i -= 1;
        let c = row[i];
        ones = with_place(ones, c, b'1', b'4');
        zeros = with_place(zeros, c, b'0', b'0');
        dashes = with_place(dashes, c, b'-', b'2');
        are_outputs = is_output(c) & are_outputs;
    }
    Outputs {
        ones,
        zeros,
        dashes,
        are_outputs,
    }
}

// The term of the characters of its two parts, if they are such.
pub(crate) fn term_of(number: u32, ins: &[u8], outs: &[u8]) -> Option<Term>
    requires few_inputs { length ins.now ≤ MOST_INPUTS }
    requires few_outputs { length outs.now ≤ MOST_OUTPUTS }
    ensures { (inputs : ℕ) (row : List ℕ) → take inputs row ≡ ins.now → drop inputs row ≡ outs.now
        → IsTermOf inputs number row result }
{
    let inputs = inputs_of(ins);
    let outputs = outputs_of(outs);
    if !inputs.are_inputs || !outputs.are_outputs {
        return None;
    }
    Some(Term {
        line: number,
        cube: Cube {
            care: inputs.care,
            want: inputs.want,
            outs: outputs.ones,
        },
        zero_outs: outputs.zeros,
        dash_outs: outputs.dashes,
    })
}

// The term of a line that is an input part, a space, and an output part.
pub(crate) fn written_term(inputs: u8, outputs: u8, number: u32, line: &[u8]) -> Option<Term>
    requires few_inputs { inputs ≤ MOST_INPUTS }
    requires few_outputs { outputs ≤ MOST_OUTPUTS }
    ensures { IfSome result (IsWritten inputs outputs number line.now) }
{
    let inputs = usize::from(inputs);
    if line.len() != inputs + 1 + usize::from(outputs) || line[inputs] != b' ' {
        return None;
    }
    term_of(number, &line[..inputs], &line[inputs + 1..])
}
