//! What can be wrong with a text, as the codes of [`TextFault`](rv_text::TextFault).
ghost use Rattle.std.specs.Prelude.{◌≡◌};
ghost use Rattle.rv_blif.specs.Code.{text_of_code};

/// `latch`
pub const LATCH: u8 = 1;

/// `not supported`
pub const NOT_SUPPORTED: u8 = 2;

/// `unknown directive`
pub const UNKNOWN_DIRECTIVE: u8 = 3;

/// `second model`
pub const SECOND_MODEL: u8 = 4;

/// `missing name`
pub const MISSING_NAME: u8 = 5;

/// `too many operands`
pub const TOO_MANY_OPERANDS: u8 = 6;

/// `too many signals`
pub const TOO_MANY_SIGNALS: u8 = 7;

/// `driven twice`
pub const DRIVEN_TWICE: u8 = 8;

/// `repeated output`
pub const REPEATED_OUTPUT: u8 = 9;

/// `row out of place`
pub const ROW_OUT_OF_PLACE: u8 = 10;

/// `wrong row length`
pub const WRONG_ROW_LENGTH: u8 = 11;

/// `wrong character`
pub const WRONG_CHARACTER: u8 = 12;

/// `mixed rows`
pub const MIXED_ROWS: u8 = 13;

/// `no outputs`
pub const NO_OUTPUTS: u8 = 14;

/// `never driven`
pub const NEVER_DRIVEN: u8 = 15;

/// `cycle`
pub const CYCLE: u8 = 16;

/// `misplaced backslash`
pub const MISPLACED_BACKSLASH: u8 = 17;

/// What a code says.
pub fn text_of_code(code: u8) -> &'static str
    ensures { result.now ≡ text_of_code code }
{
    match code {
        LATCH => "latch",
        NOT_SUPPORTED => "not supported",
        UNKNOWN_DIRECTIVE => "unknown directive",
        SECOND_MODEL => "second model",
        MISSING_NAME => "missing name",
        TOO_MANY_OPERANDS => "too many operands",
        TOO_MANY_SIGNALS => "too many signals",
        DRIVEN_TWICE => "driven twice",
        REPEATED_OUTPUT => "repeated output",
        ROW_OUT_OF_PLACE => "row out of place",
        WRONG_ROW_LENGTH => "wrong row length",
        WRONG_CHARACTER => "wrong character",
        MIXED_ROWS => "mixed rows",
        NO_OUTPUTS => "no outputs",
        NEVER_DRIVEN => "never driven",
        CYCLE => "cycle",
        _ => "misplaced backslash",
    }
}
