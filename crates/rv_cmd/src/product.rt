ghost use Rattle.std.specs.Prelude.{◌≡◌};
ghost use Rattle.rv_io.specs.Sink.{Sends};
ghost use Rattle.rv_cmd.specs.inside.Products.{alike, product_text};

use crate::commands::check::{put_verdict, put_witness};
use crate::commands::compare::put_comparison;
use crate::commands::cost::{put_circuit_cost, put_net_cost};
use crate::commands::demo::put_summary;
use crate::commands::draw::{put_drawing, put_net_drawing};
use rv_check::Verdict;
use rv_compare::Comparison;
use rv_cost::{CircuitCost, NetCost};
use rv_cube::CubeList;
use rv_curve::{Curve, write_curve};
use rv_expand::{Expansion, Toffolis};
use rv_flow::Summary;
use rv_gate::Circuit;
use rv_io::{Sink, WriteFault};
use rv_net::Net;
use rv_perm::{PermSpec, write_perm};
use rv_pla::write_esop_pla;
use rv_qasm::write_qasm;
use rv_real::write_real;
use rv_words::{PictureForm, ReportForm};

/// What a command makes of its inputs, and is to be written.
#[derive(Drop)]
pub(crate) enum Product {
    /// A circuit, in the `.real` format.
    Circuit(Circuit),
    /// A permutation.
    Permutation(PermSpec),
    /// A list of cubes, as a PLA of type esop.
    Cubes(CubeList),
    /// A network, in OpenQASM 2.0.
    Network(Net),
    /// The network of a circuit, which is made as it is written, in OpenQASM 2.0.
    Expansion(Expansion),
    /// The network of a circuit with one operation for a gate, which is made as it is written, in OpenQASM 2.0.
    Toffolis(Toffolis),
    /// What a circuit costs, in a form.
    CircuitCost(ReportForm, CircuitCost),
    /// What a network costs, in a form.
    NetCost(ReportForm, NetCost),
    /// What each step makes of a generated permutation.
    Summary(Summary),
    /// Whether a network on so many lines does exactly what a circuit does.
    Verdict(u8, Verdict),
    /// A word, by its number, at which a network on so many lines does not do what a circuit does.
    Witness(u8, u64),
    /// What was found of a circuit with so many inputs, which was compared.
    Comparison(u8, Comparison),
    /// What circuits on more and more lines cost.
    Curve(Curve),
    /// A circuit that is to be drawn, with so many gates in a block at the most, or 0 for one block.
    Drawing {
        circuit: Circuit,
        picture: PictureForm,
        wrap: u16,
    },
    /// A network that is to be drawn on the lines of a circuit without gates.
    NetDrawing {
        lines: Circuit,
        net: Net,
        picture: PictureForm,
        wrap: u16,
    },
}

/// What a command makes of its inputs, and whether it says that two of them differ.
#[derive(Drop)]
pub(crate) struct Made {
    pub(crate) product: Product,
    pub(crate) differs: bool,
}

impl Product {
    /// Says nothing of how inputs differ.
    pub(crate) fn alike(self) -> Made
        ensures { result ≡ alike self }
    {
        Made {
            product: self,
            differs: false,
        }
    }

    /// Sends its text.
    pub(crate) fn put<O: Sink>(&self, out: &mut O) -> Result<(), WriteFault>
        ensures { Sends (O.view out.old) (product_text self.now) result (O.view out.new) }
    {
        match self {
            Product::Circuit(circuit) => write_real(circuit, out),
            Product::Permutation(spec) => write_perm(spec, out),
            Product::Cubes(list) => write_esop_pla(
                list.inputs(),
                list.outputs(),
                list.cubes(),
                out,
            ),
            Product::Network(net) => write_qasm(net, out),
            Product::Expansion(expansion) => expansion.write(out),
            Product::Toffolis(toffolis) => toffolis.write(out),
            Product::CircuitCost(form, cost) => put_circuit_cost(*form, cost, out),
            Product::NetCost(form, cost) => put_net_cost(*form, cost, out),
            Product::Summary(summary) => put_summary(summary, out),
            Product::Verdict(lines, verdict) => put_verdict(*lines, *verdict, out),
            Product::Witness(lines, word) => put_witness(*lines, *word, out),
            Product::Comparison(inputs, answer) => put_comparison(*inputs, *answer, out),
            Product::Curve(curve) => write_curve(curve, out),
            Product::Drawing {
                circuit,
                picture,
                wrap,
            } => put_drawing(circuit, *picture, *wrap, out),
            Product::NetDrawing {
                lines,
                net,
                picture,
                wrap,
            } => put_net_drawing(lines, net, *picture, *wrap, out),
        }
    }
}
