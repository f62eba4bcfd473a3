// The end of a text.
ghost use Rattle.rv_reader.specs.Feeding.{Answers};
ghost use Rattle.rv_pla.specs.declared.fault.PlaFault.TheVariants.{Mem as OutOfMemory};
ghost use Rattle.rv_pla.specs.inside.Steps.{end_given};

use crate::code::MISSING_DIRECTIVE;
use crate::fault::PlaFault;
use crate::kind::Kind;
use crate::line::State;
use crate::pla::Pla;
use rv_reader::Whole;
use rv_text::TextFault;

/// The PLA that the lines of a text give, or the first fault of its end.
pub(crate) fn end_of(whole: Whole<State>) -> Result<Pla, PlaFault>
    ensures { Answers OutOfMemory result (end_given whole) }
{
    let Whole { state, lines } = whole;
    let (Some(inputs), Some(outputs)) = (state.inputs, state.outputs) else {
        return Err(PlaFault::Text(TextFault {
            line: lines,
            code: MISSING_DIRECTIVE,
        }));
    };
    let kind = state.kind.unwrap_or(Kind::Fd);
    Pla::checked(state.alloc, inputs, outputs, kind, state.terms)
}
