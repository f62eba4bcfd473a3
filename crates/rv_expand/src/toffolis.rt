ghost use Rattle.std.specs.Prelude.{◌≡◌, ◌<◌, ◌≤◌, All, IfErr, IfOk, Ok, length};
ghost use Rattle.rv_gate.specs.Gate.{run};
ghost use Rattle.rv_io.specs.Sink.{Sends};
ghost use Rattle.rv_mct.specs.Extends.{IsPlain};
ghost use Rattle.rv_net.specs.Denotes.{CarriesExtended, Denotes};
ghost use Rattle.rv_net.specs.declared.net.TheConstants.{MOST_OPS};
ghost use Rattle.rv_qasm.specs.Reading.{in_register_q, qasm_of};
ghost use Rattle.rv_qasm.specs.Text.{text_of};
ghost use Rattle.rv_expand.specs.Toffoli.{IsClassical, toffoli_net, toffoli_ops};

use crate::toffoli::{put_toffolis, toffoli_count};
use rv_gate::Circuit;
use rv_io::{Sink, WriteFault, Writer};
use rv_net::MOST_OPS;
use rv_qasm::{OpTexts, put_header};
use std::marker::Model;

/// The network of a circuit of flips with at most two controls over {x, cx, ccx, swap, cswap}, as the circuit: one
/// operation for a flip, between X on its controls that want 0, and one for three flips that are a swap.
///
/// Contracts see the network.
#[derive(Drop)]
pub struct Toffolis {
    circuit: Circuit,
}

impl Model for Toffolis {
    ghost use Rattle.rv_net.specs.Op.{IsNetwork, Network};
    ghost use Rattle.rv_expand.specs.Toffoli.{toffoli_net};

    ghost Value = { Network };

    ghost view = { λ e. toffoli_net e.circuit };

    ghost invariant = { λ e. IsNetwork (toffoli_net e.circuit) };
}

impl Toffolis {
    /// The network of a circuit. Takes no memory. An error is the number of its operations, where these are too many.
    ///
    /// What is said of the network holds also where it has too many operations.
    pub fn of_circuit(circuit: Circuit) -> Result<Toffolis, u32>
        requires { All IsPlain circuit.gates }
        ensures is { IfOk result (λ toffolis. toffolis ≡ toffoli_net circuit) }
        ensures few { IfOk result (λ toffolis. length (toffoli_ops circuit.gates) ≤ MOST_OPS) }
        ensures too_many { IfErr result (λ count. (count ≡ length (toffoli_ops circuit.gates)) × (MOST_OPS < count)) }
        ensures classical { All IsClassical (toffoli_ops circuit.gates) }
        ensures denotes { Denotes (length circuit.names) (toffoli_ops circuit.gates) (run circuit.gates) }

        // The network of a decomposition carries the circuit that was decomposed, whatever its helper lines may hold.
        ensures carries { CarriesExtended (length circuit.names) (toffoli_ops circuit.gates) circuit.gates }
    {
        circuit.recall_invariant();
        let count = toffoli_count(circuit.gates());
        if count as usize > MOST_OPS {
            return Err(count);
        }
        Ok(Toffolis { circuit })
    }

    /// Sends the text of the network, as [`write_qasm`](rv_qasm::write_qasm) sends it. Takes no memory.
    pub fn write<O: Sink>(&self, sink: &mut O) -> Result<(), WriteFault>
        ensures sent { Sends (O.view sink.old) (text_of self.now) result (O.view sink.new) }

        // The text denotes the network.
        ensures read_back { qasm_of (text_of self.now) ≡ Ok (in_register_q self.now) }
    {
        let lines = self.circuit.line_count();
        let mut writer = Writer::new();
        put_header(&mut writer, sink, lines);
        let texts = OpTexts::new(lines);
        put_toffolis(&mut writer, sink, &texts, lines, self.circuit.gates());
        writer.finish(sink)
    }
}
