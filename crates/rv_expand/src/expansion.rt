ghost use Rattle.std.specs.Prelude.{◌≡◌, ◌<◌, ◌≤◌, All, IfErr, IfOk, Ok};
ghost use Rattle.rv_io.specs.Sink.{Sends};
ghost use Rattle.rv_mct.specs.Extends.{IsPlain};
ghost use Rattle.rv_net.specs.Network.{expanded, operation_count};
ghost use Rattle.rv_net.specs.declared.net.TheConstants.{MOST_OPS};
ghost use Rattle.rv_qasm.specs.Reading.{in_register_q, qasm_of};
ghost use Rattle.rv_qasm.specs.Text.{text_of};

use crate::write::put_gates;
use rv_gate::Circuit;
use rv_io::{Sink, WriteFault, Writer};
use rv_net::{MOST_OPS, count_operations};
use rv_qasm::{OpTexts, put_header};
use std::marker::Model;

/// The network of a circuit of flips with at most two controls, as the circuit.
///
/// Contracts see the network.
#[derive(Drop)]
pub struct Expansion {
    circuit: Circuit,
}

impl Model for Expansion {
    ghost use Rattle.rv_net.specs.Network.{expanded};
    ghost use Rattle.rv_net.specs.Op.{IsNetwork, Network};

    ghost Value = { Network };

    ghost view = { λ e. expanded e.circuit };

    ghost invariant = { λ e. IsNetwork (expanded e.circuit) };
}

impl Expansion {
    /// The network of a circuit. Takes no memory. An error is the number of its operations, where these are too many.
    pub fn of_circuit(circuit: Circuit) -> Result<Expansion, u32>
        requires { All IsPlain circuit.gates }
        ensures is { IfOk result (λ expansion. expansion ≡ expanded circuit) }
        ensures few { IfOk result (λ expansion. operation_count circuit.gates ≤ MOST_OPS) }
        ensures too_many { IfErr result (λ count. (count ≡ operation_count circuit.gates) × (MOST_OPS < count)) }
    {
        circuit.recall_invariant();
        let count = count_operations(&circuit);
        if count as usize > MOST_OPS {
            return Err(count);
        }
        Ok(Expansion { circuit })
    }

    /// Sends the text of the network, as [`write_qasm`](rv_qasm::write_qasm) sends it. Takes no memory.
    pub fn write<O: Sink>(&self, sink: &mut O) -> Result<(), WriteFault>
        ensures sent { Sends (O.view sink.old) (text_of self.now) result (O.view sink.new) }

        // The text denotes the network.
        ensures read_back { qasm_of (text_of self.now) ≡ Ok (in_register_q self.now) }
    {
        let lines = self.circuit.line_count();
        let mut writer = Writer::new();
        put_header(&mut writer, sink, lines);
        let texts = OpTexts::new(lines);
        put_gates(&mut writer, sink, &texts, lines, self.circuit.gates());
        writer.finish(sink)
    }
}
