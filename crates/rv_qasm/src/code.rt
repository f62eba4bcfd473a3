//! What can be wrong with a text, as the codes of [`TextFault`](rv_text::TextFault).
ghost use Rattle.std.specs.Prelude.{◌≡◌};
ghost use Rattle.rv_qasm.specs.Code.{text_of_code};

/// `no OPENQASM 2.0 header`
pub const NO_HEADER: u8 = 1;

/// `wrong syntax`
pub const WRONG_SYNTAX: u8 = 2;

/// `unknown register`
pub const UNKNOWN_REGISTER: u8 = 3;

/// `index out of range`
pub const INDEX_OUT_OF_RANGE: u8 = 4;

/// `repeated register`
pub const REPEATED_REGISTER: u8 = 5;

/// `too many qubits`
pub const TOO_MANY_QUBITS: u8 = 6;

/// `register sizes differ`
pub const REGISTER_SIZES_DIFFER: u8 = 7;

/// `repeated operand`
pub const REPEATED_OPERAND: u8 = 8;

/// `unknown gate`
pub const UNKNOWN_GATE: u8 = 9;

/// `not supported`
pub const NOT_SUPPORTED: u8 = 10;

/// `gate after measurement`
pub const GATE_AFTER_MEASUREMENT: u8 = 11;

/// `too many operations`
pub const TOO_MANY_OPS: u8 = 12;

/// `no quantum register`
pub const NO_QUANTUM_REGISTER: u8 = 13;

/// `wrong operand count`
pub const WRONG_OPERAND_COUNT: u8 = 14;

/// `unended statement`
pub const UNENDED_STATEMENT: u8 = 15;

/// What a code says.
pub fn text_of_code(code: u8) -> &'static str
    ensures { result.now ≡ text_of_code code }
{
    match code {
        NO_HEADER => "no OPENQASM 2.0 header",
        WRONG_SYNTAX => "wrong syntax",
        UNKNOWN_REGISTER => "unknown register",
        INDEX_OUT_OF_RANGE => "index out of range",
        REPEATED_REGISTER => "repeated register",
        TOO_MANY_QUBITS => "too many qubits",
        REGISTER_SIZES_DIFFER => "register sizes differ",
        REPEATED_OPERAND => "repeated operand",
        UNKNOWN_GATE => "unknown gate",
        NOT_SUPPORTED => "not supported",
        GATE_AFTER_MEASUREMENT => "gate after measurement",
        TOO_MANY_OPS => "too many operations",
        NO_QUANTUM_REGISTER => "no quantum register",
        WRONG_OPERAND_COUNT => "wrong operand count",
        _ => "unended statement",
    }
}
