ghost use Rattle.std.specs.Prelude.{◌≡◌, ◌<◌, ◌≤◌, true, false, IfSome, MatchOption, drop};
ghost use Rattle.rv_text.specs.Decimal.{is_short_decimal, decimal_value};
ghost use Rattle.rv_real.specs.Body.{is_root_name, takes_operands, control_count};
ghost use Rattle.rv_real.specs.inside.Operands.{letter_in, TakesOperands, IsNamed};

use rv_text::{are_digits, decimal_value};

/// The kinds of gates, by the letters of their names.
#[derive(Clone, Copy)]
pub(crate) enum Kind {
    Flip,
    Swap,
    Peres,
}

/// A gate's kind, and the number of its operands.
#[derive(Clone, Copy)]
pub(crate) struct GateName {
    pub(crate) kind: Kind,
    pub(crate) operands: u16,
}

// Whether the name is `v` or `v+`, alone or followed by digits.
pub(crate) fn is_root_name(name: &[u8]) -> bool
    ensures { result ≡ is_root_name name.now }
{
    if name.is_empty() || name[0] != b'v' {
        return false;
    }
    if name.len() > 1 && name[1] == b'+' {
        are_digits(&name[2..])
    } else {
        are_digits(&name[1..])
    }
}

// The value of one to three decimal digits.
fn operand_count(digits: &[u8]) -> Option<u16>
    ensures { MatchOption result (is_short_decimal 3 digits.now ≡ false)
        (λ n. (is_short_decimal 3 digits.now ≡ true) × (n ≡ decimal_value digits.now)) }
{
    if digits.len() > 3 {
        return None;
    }
    match decimal_value(digits, 999) {
        Some(n) => Some(n as u16),
        None => None,
    }
}

// The kind of a letter that takes so many operands.
fn kind_of(letter: u8, operands: u16) -> Option<Kind>
    ensures known { MatchOption result (takes_operands letter operands ≡ false) (λ kind.
        (takes_operands letter operands ≡ true) × (letter ≡ letter_in kind)) }
    ensures takes { IfSome result (λ kind. TakesOperands kind operands) }
{
    if letter == b't' && operands > 0 {
        Some(Kind::Flip)
    } else if letter == b'f' && operands > 1 {
        Some(Kind::Swap)
    } else if letter == b'p' && operands == 3 {
        Some(Kind::Peres)
    } else {
        None
    }
}

// What a gate's name says, where it is known. `p` is read as `p3`.
pub(crate) fn gate_name(name: &[u8]) -> Option<GateName>
    ensures { IsNamed name.now result }
{
    if name == b"p".as_slice() {
        return Some(GateName {
            kind: Kind::Peres,
            operands: 3,
        });
    }
    if name.is_empty() {
        return None;
    }
    let Some(operands) = operand_count(&name[1..]) else {
        return None;
    };
    match kind_of(name[0], operands) {
        Some(kind) => Some(GateName { kind, operands }),
        None => None,
    }
}

// How many of the operands are controls.
pub(crate) fn control_count(name: GateName) -> u16
    ensures { result ≡ control_count (letter_in name.kind) name.operands }
{
    match name.kind {
        Kind::Flip => name.operands.saturating_sub(1),
        Kind::Swap => name.operands.saturating_sub(2),
        Kind::Peres => 0,
    }
}
