ghost use Rattle.std.specs.Prelude.{◌≡◌, ◌≤◌, ◌+◌, ℕ, List, [], ◌++◌, Some, None, Err};
ghost use Rattle.rv_reader.specs.Feeding.{Answers, checked};
ghost use Rattle.rv_qasm.specs.declared.fault.QasmFault.{QasmFault};
ghost use Rattle.rv_qasm.specs.declared.fault.QasmFault.TheVariants.{Text, Mem};
ghost use Rattle.rv_qasm.specs.Reading.{qasm_of, ended_statements_read};
ghost use Rattle.rv_qasm.specs.inside.Reached.{end_of, refusal_in, StandsForText};

use crate::QasmFault;
use crate::program::Program;
use crate::reached::Reached;
use rv_reader::TextReader;
use std::alloc::Global;
use std::marker::Model;

/// Reads an OpenQASM 2.0 text, which comes in pieces of any size.
///
/// It takes at most [`MOST_BYTES`](rv_text::MOST_BYTES) bytes in all. Once a piece is refused, the
/// reader answers that refusal to all that follows, want of memory too. What a reader holds is the
/// statement that is being read, and the program so far.
#[derive(Drop)]
pub struct QasmReader {
    reached: Reached,
    fed: usize,
    refused: Option<QasmFault>,
}

impl Model for QasmReader {
    ghost use Rattle.std.specs.Prelude.{◌≤◌, ◌+◌};
    ghost use Rattle.rv_text.specs.declared.lines.TheConstants.{MOST_BYTES};
    ghost use Rattle.rv_qasm.specs.inside.Reached.{QasmFeeding, progress_kept};

    ghost Value = { QasmFeeding };

    ghost view = { λ r. record { fed = r.fed; progress = progress_kept r.refused r.reached } };

    ghost invariant = { λ r. (r.reached.begun.line ≤ r.fed + 1) × (r.fed ≤ MOST_BYTES) };
}

// What all bytes give, or the refusal that was kept.
fn finished(reached: Reached, refused: Option<QasmFault>) -> Result<Program, QasmFault>
    ensures kept { (fault : QasmFault) → refused ≡ Some fault → result ≡ Err fault }
    ensures ended { refused ≡ None → Answers Mem result (end_of reached) }
{
    match refused {
        Some(fault) => Err(fault),
        None => reached.end(),
    }
}

impl TextReader for QasmReader {
    type Object = Program;

    type Fault = QasmFault;

    ghost denoted = { qasm_of };

    ghost ended = { λ text. checked Text (ended_statements_read text) };

    ghost mem = { Mem };

    ghost Stands = { StandsForText };

    ghost fed = { λ reader. reader.fed };

    ghost refusal = { λ reader. refusal_in reader.progress };

    fn new(alloc: Global) -> QasmReader {
        QasmReader {
            reached: Reached::new(alloc),
            fed: 0,
            refused: None,
        }
    }

    fn feed(&mut self, piece: &[u8]) -> Result<(), QasmFault> {
        match self.refused {
            Some(fault) => Err(fault),
            None => {
                self.fed += piece.len();
                match self.reached.take(piece) {
                    Ok(()) => Ok(()),
                    Err(fault) => {
                        self.refused = Some(fault);
                        Err(fault)
                    }
                }
            }
        }
    }

    fn finish(self) -> Result<Program, QasmFault> {
        finished(self.reached, self.refused)
    }
}
