// What a statement is, by its first token.
ghost use Rattle.std.specs.Prelude.{◌≡◌, ◌∷◌, ℕ, List};
ghost use Rattle.rv_qasm.specs.Rules.{SoFar, body_read};
ghost use Rattle.rv_qasm.specs.inside.Kinds.{read_as};

use crate::gates::begins_unsupported;

#[derive(Clone, Copy)]
pub(crate) enum Kind {
    Unsupported,
    Include,
    Qreg,
    Creg,
    Barrier,
    Id,
    Measure,
    Gate,
}

pub(crate) fn kind_of(name: &[u8]) -> Kind
    ensures { (so_far : SoFar) (tokens : List (List ℕ))
        → body_read so_far (name.now ∷ tokens) ≡ read_as result so_far name.now tokens }
{
    if begins_unsupported(name) {
        Kind::Unsupported
    } else if name == b"include".as_slice() {
        Kind::Include
    } else if name == b"qreg".as_slice() {
        Kind::Qreg
    } else if name == b"creg".as_slice() {
        Kind::Creg
    } else if name == b"barrier".as_slice() {
        Kind::Barrier
    } else if name == b"id".as_slice() {
        Kind::Id
    } else if name == b"measure".as_slice() {
        Kind::Measure
    } else {
        Kind::Gate
    }
}
