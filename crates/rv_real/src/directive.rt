// What a directive is, by its name.
ghost use Rattle.std.specs.Prelude.{◌≡◌, ℕ, List, Err};
ghost use Rattle.rv_text.specs.Tokens.{Lexeme};
ghost use Rattle.rv_real.specs.Header.{is_dropped, is_refused};
ghost use Rattle.rv_real.specs.inside.Directives.{Header};
ghost use Rattle.rv_real.specs.inside.HeaderSteps.{named_directive, refused_directive};
ghost use Rattle.rv_real.specs.inside.ByName.{read_as};

use crate::code::{DIRECTIVE_OUT_OF_PLACE, MISSING_DIRECTIVE, NOT_SUPPORTED, UNKNOWN_DIRECTIVE};
use rv_text::begins_with_dot;

/// A directive of the header but `.begin`.
#[derive(Clone, Copy)]
pub(crate) enum Directive {
    Dropped,
    Numvars,
    Variables,
    Inputs,
    Outputs,
    Constants,
    Garbage,
    /// The code for which it is refused.
    Refused(u8),
}

#[tactic(auto, unfolding(crate::specs::inside::HeaderSteps::named_directive))]
pub(crate) fn directive_named(name: &[u8]) -> Directive
    ensures { (h : Header) (ws : List Lexeme) → named_directive h name.now ws ≡ read_as result h ws }
{
    if is_dropped(name) {
        Directive::Dropped
    } else if name == b".numvars".as_slice() {
        Directive::Numvars
    } else if name == b".variables".as_slice() {
        Directive::Variables
    } else if name == b".inputs".as_slice() {
        Directive::Inputs
    } else if name == b".outputs".as_slice() {
        Directive::Outputs
    } else if name == b".constants".as_slice() {
        Directive::Constants
    } else if name == b".garbage".as_slice() {
        Directive::Garbage
    } else {
        Directive::Refused(refused_code(name))
    }
}

// Why a name is no directive that may stand there.
fn refused_code(name: &[u8]) -> u8
    ensures { refused_directive name.now ≡ Err result }
{
    if is_refused(name) {
        NOT_SUPPORTED
    } else if name == b".end".as_slice() {
        DIRECTIVE_OUT_OF_PLACE
    } else if begins_with_dot(name) {
        UNKNOWN_DIRECTIVE
    } else {
        MISSING_DIRECTIVE
    }
}

fn is_dropped(name: &[u8]) -> bool
    ensures { result ≡ is_dropped name.now }
{
    name == b".version".as_slice()
        || name == b".inputbus".as_slice()
        || name == b".outputbus".as_slice()
        || name == b".state".as_slice()
}

fn is_refused(name: &[u8]) -> bool
    ensures { result ≡ is_refused name.now }
{
    name == b".module".as_slice() || name == b".define".as_slice()
}
