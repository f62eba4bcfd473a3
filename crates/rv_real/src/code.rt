//! What can be wrong with a text, as the codes of [`TextFault`](rv_text::TextFault).
ghost use Rattle.std.specs.Prelude.{◌≡◌};
ghost use Rattle.rv_real.specs.Code.{text_of_code};

/// `missing directive`
pub const MISSING_DIRECTIVE: u8 = 1;

/// `wrong number`
pub const WRONG_NUMBER: u8 = 2;

/// `repeated label`
pub const REPEATED_LABEL: u8 = 3;

/// `unknown label`
pub const UNKNOWN_LABEL: u8 = 4;

/// `unknown gate`
pub const UNKNOWN_GATE: u8 = 5;

/// `wrong operand count`
pub const WRONG_OPERAND_COUNT: u8 = 6;

/// `repeated operand`
pub const REPEATED_OPERAND: u8 = 7;

/// `not supported`
pub const NOT_SUPPORTED: u8 = 8;

/// `wrong mark row`
pub const WRONG_MARK_ROW: u8 = 9;

/// `text after .end`
pub const TEXT_AFTER_END: u8 = 10;

/// `no .end`
pub const NO_END: u8 = 11;

/// `too many lines`
pub const TOO_MANY_LINES: u8 = 12;

/// `too many gates`
pub const TOO_MANY_GATES: u8 = 13;

/// `unclosed quote`
pub const UNCLOSED_QUOTE: u8 = 14;

/// `directive out of place`
pub const DIRECTIVE_OUT_OF_PLACE: u8 = 15;

/// `unknown directive`
pub const UNKNOWN_DIRECTIVE: u8 = 16;

/// `sign on a target`
pub const SIGN_ON_TARGET: u8 = 17;

/// `wrong label count`
pub const WRONG_LABEL_COUNT: u8 = 18;

/// `wrong name`
pub const WRONG_NAME: u8 = 19;

/// What a code says.
pub fn text_of_code(code: u8) -> &'static str
    ensures { result.now ≡ text_of_code code }
{
    match code {
        MISSING_DIRECTIVE => "missing directive",
        WRONG_NUMBER => "wrong number",
        REPEATED_LABEL => "repeated label",
        UNKNOWN_LABEL => "unknown label",
        UNKNOWN_GATE => "unknown gate",
        WRONG_OPERAND_COUNT => "wrong operand count",
        REPEATED_OPERAND => "repeated operand",
        NOT_SUPPORTED => "not supported",
        WRONG_MARK_ROW => "wrong mark row",
        TEXT_AFTER_END => "text after .end",
        NO_END => "no .end",
        TOO_MANY_LINES => "too many lines",
        TOO_MANY_GATES => "too many gates",
        UNCLOSED_QUOTE => "unclosed quote",
        DIRECTIVE_OUT_OF_PLACE => "directive out of place",
        UNKNOWN_DIRECTIVE => "unknown directive",
        SIGN_ON_TARGET => "sign on a target",
        WRONG_LABEL_COUNT => "wrong label count",
        _ => "wrong name",
    }
}
