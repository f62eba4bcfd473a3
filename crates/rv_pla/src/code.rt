//! What can be wrong with a text, as the codes of [`TextFault`](rv_text::TextFault).
ghost use Rattle.std.specs.Prelude.{◌≡◌};
ghost use Rattle.rv_pla.specs.Code.{text_of_code};

/// `missing directive`
pub const MISSING_DIRECTIVE: u8 = 1;

/// `wrong number`
pub const WRONG_NUMBER: u8 = 2;

/// `too many inputs or outputs`
pub const TOO_MANY_INPUTS_OR_OUTPUTS: u8 = 3;

/// `directive out of place`
pub const DIRECTIVE_OUT_OF_PLACE: u8 = 4;

/// `unknown directive`
pub const UNKNOWN_DIRECTIVE: u8 = 5;

/// `not supported`
pub const NOT_SUPPORTED: u8 = 6;

/// `wrong term length`
pub const WRONG_TERM_LENGTH: u8 = 7;

/// `wrong character`
pub const WRONG_CHARACTER: u8 = 8;

/// `too many terms`
pub const TOO_MANY_TERMS: u8 = 9;

/// What a code says.
pub fn text_of_code(code: u8) -> &'static str
    ensures { result.now ≡ text_of_code code }
{
    match code {
        MISSING_DIRECTIVE => "missing directive",
        WRONG_NUMBER => "wrong number",
        TOO_MANY_INPUTS_OR_OUTPUTS => "too many inputs or outputs",
        DIRECTIVE_OUT_OF_PLACE => "directive out of place",
        UNKNOWN_DIRECTIVE => "unknown directive",
        NOT_SUPPORTED => "not supported",
        WRONG_TERM_LENGTH => "wrong term length",
        WRONG_CHARACTER => "wrong character",
        _ => "too many terms",
    }
}
