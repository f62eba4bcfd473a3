//! What can be wrong with a text, as the codes of [`TextFault`](rv_text::TextFault).
ghost use Rattle.std.specs.Prelude.{◌≡◌};
ghost use Rattle.rv_perm.specs.Code.{text_of_code};

/// `not a number`
pub const NOT_A_NUMBER: u8 = 1;

/// `unknown directive`
pub const UNKNOWN_DIRECTIVE: u8 = 2;

/// `directive out of place`
pub const DIRECTIVE_OUT_OF_PLACE: u8 = 3;

/// `wrong mark row`
pub const WRONG_MARK_ROW: u8 = 4;

/// What a code says.
pub fn text_of_code(code: u8) -> &'static str
    ensures { result.now ≡ text_of_code code }
{
    match code {
        NOT_A_NUMBER => "not a number",
        UNKNOWN_DIRECTIVE => "unknown directive",
        DIRECTIVE_OUT_OF_PLACE => "directive out of place",
        _ => "wrong mark row",
    }
}
