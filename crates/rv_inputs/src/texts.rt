// The texts that an input may hold, with their faults as those of an input.
ghost use Rattle.std.specs.Prelude.{◌≡◌, Option, Some, None, refl};
ghost use Rattle.rv_faults.specs.declared.fault.InputFault.{InputFault};
ghost use Rattle.rv_inputs.specs.Formats.{no_circuit, no_logic, no_permutation, no_pla, no_program};

use rv_blif::{BlifFault, BlifReader};
use rv_faults::{InputFault, TextFormat};
use rv_perm::{PermFault, PermReader};
use rv_pla::{PlaFault, PlaReader};
use rv_qasm::{QasmFault, QasmReader};
use rv_reader::TextReader;
use rv_real::{RealFault, RealReader};

/// A text that an input may hold.
pub trait InputText: TextReader {
    /// Why a text is refused that has a fault; nothing stands for want of memory.
    ghost why: { Self.Fault → Option InputFault };

    fn why(fault: Self::Fault) -> Option<InputFault>
        ensures { result ≡ why fault };

    ghost why_mem: { why Self.mem ≡ None };
}

fn of_text(format: TextFormat, line: u32, code: u8) -> Option<InputFault>
    ensures { result ≡ Some (InputFault.Text format line code) }
{
    Some(InputFault::Text { format, line, code })
}

impl InputText for RealReader {
    ghost why = { no_circuit };

    ghost why_mem = { refl };

    fn why(fault: RealFault) -> Option<InputFault> {
        match fault {
            RealFault::Text(fault) => of_text(TextFormat::Real, fault.line, fault.code),
            RealFault::Mem => None,
        }
    }
}

impl InputText for PermReader {
    ghost why = { no_permutation };

    ghost why_mem = { refl };

    fn why(fault: PermFault) -> Option<InputFault> {
        let why = match fault {
            PermFault::Text(fault) => {
                return of_text(TextFormat::Permutation, fault.line, fault.code);
            }
            PermFault::Length(count) => InputFault::WrongLength { count },
            PermFault::OutOfRange(place) => InputFault::OutOfRange { place },
            PermFault::Repeated(first, second) => InputFault::Repeated { first, second },
            PermFault::Mem => return None,
        };
        Some(why)
    }
}

impl InputText for PlaReader {
    ghost why = { no_pla };

    ghost why_mem = { refl };

    fn why(fault: PlaFault) -> Option<InputFault> {
        let why = match fault {
            PlaFault::Text(fault) => return of_text(TextFormat::Pla, fault.line, fault.code),
            PlaFault::Conflict {
                on_line,
                off_line,
                inputs,
                word,
                ..
            } => InputFault::Conflict {
                on_line,
                off_line,
                inputs,
                word,
            },
            PlaFault::Mem => return None,
        };
        Some(why)
    }
}

impl InputText for QasmReader {
    ghost why = { no_program };

    ghost why_mem = { refl };

    fn why(fault: QasmFault) -> Option<InputFault> {
        match fault {
            QasmFault::Text(fault) => of_text(TextFormat::Qasm, fault.line, fault.code),
            QasmFault::Mem => None,
        }
    }
}

impl InputText for BlifReader {
    ghost why = { no_logic };

    ghost why_mem = { refl };

    fn why(fault: BlifFault) -> Option<InputFault> {
        match fault {
            BlifFault::Text(fault) => of_text(TextFormat::Blif, fault.line, fault.code),
            BlifFault::Mem => None,
        }
    }
}
