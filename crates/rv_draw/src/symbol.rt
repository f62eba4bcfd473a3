ghost use Rattle.std.specs.Prelude.{◌≡◌, ◌↔◌, ◌<◌};
ghost use Rattle.std.specs.List.{flat_map};
ghost use Rattle.rv_gate.specs.declared.word.TheConstants.{MOST_LINES};
ghost use Rattle.rv_draw.specs.Drawing.{cell};
ghost use Rattle.rv_draw.specs.Symbols.{IsCrossed, control_symbol, glyph, is_between, line_set, op_symbol_on, pair_on};
ghost use Rattle.rv_draw.specs.Symbols.{passing, symbol_on};

use rv_gate::{Gate, LineSet, MOST_LINES, Shape, has};
use rv_net::Op;

/// What stands at one place of a line.
#[derive(Clone, Copy)]
pub enum Symbol {
    /// `─`: the line itself.
    Wire,
    /// `┼`: a gate passes the line and doesn't touch it.
    Crossing,
    /// `●`: a control that wants 1.
    Positive,
    /// `○`: a control that wants 0.
    Negative,
    /// `⊕`: the target of a flip, and the last line of a Peres gate.
    Target,
    /// `✕`: one of the two targets of a swap.
    Exchanged,
    /// `◉`: the second line of a Peres gate, a control that is changed too.
    Middle,
    /// `0`: the line begins with the constant 0.
    Zero,
    /// `1`: the line begins with the constant 1.
    One,
    /// `┤`: the line ends as garbage.
    Wall,
    /// An operation of a network on one line, as all that follow; the inverses of `T` and `S` are `t` and `s`.
    H,
    T,
    Tdg,
    S,
    Sdg,
    Z,
    Y,
}

impl Symbol {
    /// The symbol in UTF-8.
    pub fn glyph(self) -> &'static [u8]
        ensures { result.now ≡ glyph self }
    {
        match self {
            Symbol::Wire => b"\xe2\x94\x80",
            Symbol::Crossing => b"\xe2\x94\xbc",
            Symbol::Positive => b"\xe2\x97\x8f",
            Symbol::Negative => b"\xe2\x97\x8b",
            Symbol::Target => b"\xe2\x8a\x95",
            Symbol::Exchanged => b"\xe2\x9c\x95",
            Symbol::Middle => b"\xe2\x97\x89",
            Symbol::Zero => b"0",
            Symbol::One => b"1",
            Symbol::Wall => b"\xe2\x94\xa4",
            Symbol::H => b"H",
            Symbol::T => b"T",
            Symbol::Tdg => b"t",
            Symbol::S => b"S",
            Symbol::Sdg => b"s",
            Symbol::Z => b"Z",
            Symbol::Y => b"Y",
        }
    }
}

// The symbol between two pieces of wire, in UTF-8.
pub(crate) fn cell(symbol: Symbol) -> &'static [u8]
    ensures { result.now ≡ flat_map glyph (cell symbol) }
{
    match symbol {
        Symbol::Wire => b"\xe2\x94\x80\xe2\x94\x80\xe2\x94\x80",
        Symbol::Crossing => b"\xe2\x94\x80\xe2\x94\xbc\xe2\x94\x80",
        Symbol::Positive => b"\xe2\x94\x80\xe2\x97\x8f\xe2\x94\x80",
        Symbol::Negative => b"\xe2\x94\x80\xe2\x97\x8b\xe2\x94\x80",
        Symbol::Target => b"\xe2\x94\x80\xe2\x8a\x95\xe2\x94\x80",
        Symbol::Exchanged => b"\xe2\x94\x80\xe2\x9c\x95\xe2\x94\x80",
        Symbol::Middle => b"\xe2\x94\x80\xe2\x97\x89\xe2\x94\x80",
        Symbol::Zero => b"\xe2\x94\x800\xe2\x94\x80",
        Symbol::One => b"\xe2\x94\x801\xe2\x94\x80",
        Symbol::Wall => b"\xe2\x94\x80\xe2\x94\xa4\xe2\x94\x80",
        Symbol::H => b"\xe2\x94\x80H\xe2\x94\x80",
        Symbol::T => b"\xe2\x94\x80T\xe2\x94\x80",
        Symbol::Tdg => b"\xe2\x94\x80t\xe2\x94\x80",
        Symbol::S => b"\xe2\x94\x80S\xe2\x94\x80",
        Symbol::Sdg => b"\xe2\x94\x80s\xe2\x94\x80",
        Symbol::Z => b"\xe2\x94\x80Z\xe2\x94\x80",
        Symbol::Y => b"\xe2\x94\x80Y\xe2\x94\x80",
    }
}

/// What a gate draws on a line.
pub fn symbol_on(gate: Gate, line: u8) -> Symbol
    requires { line < MOST_LINES }
    ensures value { result ≡ symbol_on gate line }

    // `┼` stands exactly on a line that isn't touched, between lines that are.
    ensures crossing { (result ≡ Symbol.Crossing) ↔ IsCrossed gate line }
{
    drawn_on(gate, line)
}

fn drawn_on(gate: Gate, line: u8) -> Symbol
    requires { line < MOST_LINES }
    ensures { result ≡ symbol_on gate line }
{
    match gate.shape() {
        Shape::Flip { care, want, target } => {
            if line == target {
                Symbol::Target
            } else {
                control_symbol(gate, care, want, line)
            }
        }
        Shape::Swap { care, want, a, b } => {
            if line == a || line == b {
                Symbol::Exchanged
            } else {
                control_symbol(gate, care, want, line)
            }
        }
        Shape::Peres { a, b, c } => {
            if line == a {
                Symbol::Positive
            } else if line == b {
                Symbol::Middle
            } else if line == c {
                Symbol::Target
            } else {
                passing(gate, line)
            }
        }
    }
}

// A control, where the line is one.
fn control_symbol(gate: Gate, care: LineSet, want: LineSet, line: u8) -> Symbol
    requires { line < MOST_LINES }
    ensures { result ≡ control_symbol care want line (passing gate line) }
{
    if !has(care, line) {
        passing(gate, line)
    } else if has(want, line) {
        Symbol::Positive
    } else {
        Symbol::Negative
    }
}

// What stands on a line that the gate doesn't touch.
fn passing(gate: Gate, line: u8) -> Symbol
    requires { line < MOST_LINES }
    ensures { result ≡ passing gate line }
{
    if is_between(gate.touched(), line) {
        Symbol::Crossing
    } else {
        Symbol::Wire
    }
}

// Whether a set has a line before this one, and this one or a later one.
fn is_between(lines: LineSet, line: u8) -> bool
    requires { line < MOST_LINES }
    ensures { result ≡ is_between lines line }
{
    lines % (1 << line) != 0 && lines >> line != 0
}

// The symbol on two lines, which may be one, under controls that want 1.
fn pair_on(own: Symbol, a: u8, b: u8, care: LineSet, line: u8) -> Symbol
    requires { line < MOST_LINES }
    ensures { result ≡ pair_on own a b care line }
{
    if line == a || line == b {
        own
    } else if has(care, line) {
        Symbol::Positive
    } else if is_between(care | (line_set(a) | line_set(b)), line) {
        Symbol::Crossing
    } else {
        Symbol::Wire
    }
}

// The set of a line, if it is one.
fn line_set(line: u8) -> LineSet
    ensures { result ≡ line_set line }
{
    if line < MOST_LINES { 1 << line } else { 0 }
}

/// What an operation of a network draws on a line.
pub fn op_symbol_on(op: Op, line: u8) -> Symbol
    requires { line < MOST_LINES }
    ensures { result ≡ op_symbol_on op line }
{
    match op {
        Op::X(q) => pair_on(Symbol::Target, q, q, 0, line),
        Op::Y(q) => pair_on(Symbol::Y, q, q, 0, line),
        Op::Z(q) => pair_on(Symbol::Z, q, q, 0, line),
        Op::H(q) => pair_on(Symbol::H, q, q, 0, line),
        Op::S(q) => pair_on(Symbol::S, q, q, 0, line),
        Op::Sdg(q) => pair_on(Symbol::Sdg, q, q, 0, line),
        Op::T(q) => pair_on(Symbol::T, q, q, 0, line),
        Op::Tdg(q) => pair_on(Symbol::Tdg, q, q, 0, line),
        Op::Cx(a, b) => pair_on(Symbol::Target, b, b, line_set(a), line),
        Op::Cz(a, b) => pair_on(Symbol::Positive, a, b, 0, line),
        Op::Ccx(a, b, c) => pair_on(Symbol::Target, c, c, line_set(a) | line_set(b), line),
        Op::Swap(a, b) => pair_on(Symbol::Exchanged, a, b, 0, line),
        Op::Cswap(c, a, b) => pair_on(Symbol::Exchanged, a, b, line_set(c), line),
    }
}
