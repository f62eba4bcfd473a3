ghost use Rattle.std.specs.Prelude.{◌≡◌, ◌<◌, ◌≤◌, ◌+◌, ◌^◌, ℕ, Bool, List, [], ◌∷◌, ◌++◌, true, false, drop, length};
ghost use Rattle.std.specs.Prelude.{nat_lt, bit_or, if◌then◌else◌, IfSome, IfOk};
ghost use Rattle.rv_text.specs.Tokens.{tokens_of};
ghost use Rattle.rv_gate.specs.Gate.{FitsIn};
ghost use Rattle.rv_gate.specs.declared.word.TheConstants.{MOST_LINES};
ghost use Rattle.rv_reader.specs.inside.Answered.{GivesValue};
ghost use Rattle.rv_real.specs.Rules.{in_order};
ghost use Rattle.rv_real.specs.Body.{Operand as AnOperand, has_sign, without_sign, operand_of, with_operand};
ghost use Rattle.rv_real.specs.Body.{has_repeated, shape_of, control_count};
ghost use Rattle.rv_real.specs.inside.Places.{ArePlaces};
ghost use Rattle.rv_real.specs.inside.Operands.{letter_in, TakesOperands, Gathers, operand_in, pushed, GivesOperands};

use crate::code::{SIGN_ON_TARGET, UNKNOWN_LABEL};
use crate::gate_name::Kind;
use crate::line_set::with_line;
use crate::places::Places;
use crate::words::word;
use rv_gate::{Gate, LineSet, Names, has};
use rv_reader::Stop;

/// The line of an operand, and whether a `-` stands before its name.
#[derive(Clone, Copy)]
pub(crate) struct Operand {
    pub(crate) line: u8,
    pub(crate) is_negative: bool,
}

/// What is kept of the operands of a gate.
#[derive(Clone, Copy)]
pub(crate) struct Operands {
    pub(crate) count: usize,
    /// The lines of all operands.
    lines: LineSet,
    /// Whether a line is named twice.
    pub(crate) is_repeated: bool,
    /// The controls, and those that want 1.
    care: LineSet,
    want: LineSet,
    /// The lines of the last three operands.
    first: u8,
    second: u8,
    third: u8,
}

fn has_sign(operand: &[u8]) -> bool
    ensures { result ≡ has_sign operand.now }
{
    !operand.is_empty() && operand[0] == b'-'
}

// An operand without its sign, where it has one.
fn without_sign(operand: &[u8], is_negative: bool) -> &[u8]
    requires { is_negative ≡ has_sign operand.now }
    ensures { result.now ≡ without_sign operand.now }
{
    if is_negative { &operand[1..] } else { operand }
}

// An operand of a gate whose controls alone may have a sign.
fn operand_of(
    names: &Names,
    places: &Places,
    is_control: bool,
    operand: &[u8],
    quoted: bool,
) -> Result<Operand, Stop>
    requires places { ArePlaces names.now places.now }
    ensures gives { (closed : Bool) → GivesValue operand_in result
        (operand_of names.now is_control (record { bytes = operand.now; quoted = quoted; closed = closed })) }
    ensures below { IfOk result (λ operand. operand.line < length names.now) }
{
    if quoted {
        return Err(Stop::Fault(UNKNOWN_LABEL));
    }
    let is_negative = has_sign(operand);
    let Some(line) = places.find(names, without_sign(operand, is_negative)) else {
        return Err(Stop::Fault(UNKNOWN_LABEL));
    };
    if is_negative && !is_control {
        return Err(Stop::Fault(SIGN_ON_TARGET));
    }
    Ok(Operand { line, is_negative })
}

// The set, with the line where it is such a control.
fn with_control(set: LineSet, line: u8, is_such: bool) -> LineSet
    requires { line < MOST_LINES }
    ensures { result ≡ (if is_such then bit_or set (2 ^ line) else set) }
{
    if is_such { with_line(set, line) } else { set }
}

impl Operands {
    fn none() -> Operands
        ensures { (lines controls : ℕ) → Gathers lines controls [] result }
    {
        Operands {
            count: 0,
            lines: 0,
            is_repeated: false,
            care: 0,
            want: 0,
            first: 0,
            second: 0,
            third: 0,
        }
    }

    // One more operand.
    fn pushed(self, operand: Operand, is_control: bool) -> Operands
        requires line { operand.line < MOST_LINES }
        requires count { self.count < 2 ^ 31 }
        ensures { result ≡ pushed self (operand_in operand) is_control }
    {
        Operands {
            count: self.count + 1,
            lines: with_line(self.lines, operand.line),
            is_repeated: self.is_repeated | has(self.lines, operand.line),
            care: with_control(self.care, operand.line, is_control),
            want: with_control(self.want, operand.line, is_control && !operand.is_negative),
            first: self.second,
            second: self.third,
            third: operand.line,
        }
    }

    /// The gate of a kind on these operands.
    pub(crate) fn gate(&self, kind: Kind) -> Option<Gate>
        ensures { (lines : ℕ) (operands : List AnOperand) → TakesOperands kind (length operands) → lines ≤ MOST_LINES
            → Gathers lines (control_count (letter_in kind) (length operands)) operands self.now
            → has_repeated operands ≡ false
            → (result ≡ Some (shape_of (letter_in kind) operands)) × FitsIn (shape_of (letter_in kind) operands) lines }
    {
        match kind {
            Kind::Flip => Gate::flip(self.care, self.want, self.third),
            Kind::Swap => Gate::swap(self.care, self.want, self.second, self.third),
            Kind::Peres => Gate::peres(self.first, self.second, self.third),
        }
    }
}

// The operands from a place on, of which so many are controls.
pub(crate) fn read_operands(
    names: &Names,
    places: &Places,
    controls: usize,
    line: &[u8],
    from: usize,
) -> Result<Operands, Stop>
    requires places { ArePlaces names.now places.now }
    requires from { from ≤ length line.now }
    requires len { length line.now < 2 ^ 31 }
    ensures { GivesOperands (length names.now) controls result
        (in_order (with_operand names.now controls) [] (tokens_of true [] (drop from line.now))) }
{
    let mut kept = Operands::none();
    let mut at = from;
    names.recall_invariant();
    while let Some(found) = word(line, at) {
        let is_control = kept.count < controls;
        let operand = &line[found.start..found.end];
        match operand_of(names, places, is_control, operand, found.quoted) {
            Ok(operand) => kept = kept.pushed(operand, is_control),
            Err(stop) => return Err(stop),
        }
        at = found.after();
    }
    Ok(kept)
}
