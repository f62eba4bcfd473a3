ghost use Rattle.std.specs.Prelude.{◌≡◌, ◌≤◌, IfOk, length};
ghost use Rattle.rv_io.specs.Sink.{Sends};
ghost use Rattle.rv_inputs.specs.Formats.{circuit as circuit_format};
ghost use Rattle.rv_cmd.specs.Commands.Draw.{IsDrawing, IsNetworkDrawing, circuit_text, draw_report, draw_row};
ghost use Rattle.rv_cmd.specs.Commands.Draw.{network_report, network_text, per_block};
ghost use Rattle.rv_cmd.specs.Names.{names_read};
ghost use Rattle.rv_cmd.specs.Row.{one};
ghost use Rattle.rv_cmd.specs.inside.Making.{Makes};
ghost use Rattle.rv_cmd.specs.inside.Products.{IsProductOf};
ghost use Rattle.rv_cmd.specs.declared.product.Product.TheVariants.{NetDrawing};
ghost use Rattle.rv_picture.specs.Lines.{network_lines};

use crate::making::{OneInput, of_one};
use crate::names::name_of;
use crate::product::{Made, Product};
use rv_draw::{write_drawing, write_network};
use rv_faults::{Refusal, Unmade};
use rv_gate::Circuit;
use rv_inputs::read_one;
use rv_io::{Files, Sink, WriteFault};
use rv_net::{MOST_OPS, Net};
use rv_picture::{latex_circuit, latex_network, network_lines, svg_circuit, svg_network};
use rv_qasm::{Program, QasmReader};
use rv_real::RealReader;
use rv_words::{Form, PictureForm, Settings};
use std::alloc::{AllocError, Global};

/// The circuit or network that is read, to be drawn.
pub(crate) fn draw<F: Files>(
    alloc: Global,
    settings: &Settings,
    files: &mut F,
) -> Result<Made, Unmade>
    requires { length (names_read settings.now) ≡ 1 }
    ensures { Makes (draw_row settings.now.origin settings.now.picture settings.now.wrap) (names_read settings.now)
        (F.view files.old) (F.view files.new) result }
{
    let (picture, wrap) = (settings.picture, settings.wrap);
    match settings.origin {
        Form::Qasm => of_one(alloc, settings, files, &OfProgram { picture, wrap }),
        _ => circuit_drawn(alloc, settings, files),
    }
}

// The circuit that is read. It is handed on as it is, and no copy of it is made.
fn circuit_drawn<F: Files>(
    alloc: Global,
    settings: &Settings,
    files: &mut F,
) -> Result<Made, Unmade>
    requires { length (names_read settings.now) ≡ 1 }
    ensures { Makes
        (one circuit_format (draw_report settings.now.picture settings.now.wrap)
        (IsDrawing settings.now.picture settings.now.wrap))
        (names_read settings.now) (F.view files.old) (F.view files.new) result }
{
    match read_one::<F, RealReader>(alloc, name_of(settings, 0), files) {
        Ok(circuit) => Ok(drawing(circuit, settings.picture, settings.wrap).alike()),
        Err(unmade) => Err(unmade),
    }
}

fn drawing(circuit: Circuit, picture: PictureForm, wrap: u16) -> Product
    ensures { IsProductOf (draw_report picture wrap circuit) (IsDrawing picture wrap circuit) result }
{
    circuit.recall_invariant();
    Product::Drawing {
        circuit,
        picture,
        wrap,
    }
}

#[derive(Clone, Copy)]
struct OfProgram {
    picture: PictureForm,
    wrap: u16,
}

impl OneInput for OfProgram {
    type Text = QasmReader;

    ghost report = { λ command. network_report command.picture command.wrap };

    ghost Means = { λ command. IsNetworkDrawing command.picture command.wrap };

    fn make(&self, alloc: Global, program: &Program) -> Result<Product, Refusal> {
        let net = program.net();
        net.recall_invariant();
        match network_drawing(alloc, net, self.picture, self.wrap) {
            Ok(product) => Ok(product),
            Err(_) => Err(Refusal::OutOfMemory),
        }
    }
}

fn network_drawing(
    alloc: Global,
    net: &Net,
    picture: PictureForm,
    wrap: u16,
) -> Result<Product, AllocError>
    ensures { IfOk result (λ product. product ≡ NetDrawing (network_lines net.now.lines) net.now picture wrap) }
{
    net.recall_invariant();
    let lines = network_lines(alloc, net.lines())?;
    let net = copy_of(alloc, net)?;
    Ok(Product::NetDrawing {
        lines,
        net,
        picture,
        wrap,
    })
}

fn copy_of(alloc: Global, net: &Net) -> Result<Net, AllocError>
    ensures { IfOk result (λ copy. copy ≡ net.now) }
{
    net.recall_invariant();
    let ops = Vec::from_slice(alloc, net.ops())?;
    Ok(Net::of_ops(net.lines(), ops))
}

fn per_block(wrap: u16) -> usize
    ensures value { result ≡ per_block wrap }
    ensures some { 1 ≤ result }
{
    if wrap == 0 {
        MOST_OPS
    } else {
        usize::from(wrap)
    }
}

/// Sends the picture of a circuit, with so many gates in a block at the most, or all in one.
pub(crate) fn put_drawing<O: Sink>(
    circuit: &Circuit,
    picture: PictureForm,
    wrap: u16,
    out: &mut O,
) -> Result<(), WriteFault>
    ensures { Sends (O.view out.old) (circuit_text picture wrap circuit.now) result (O.view out.new) }
{
    match picture {
        PictureForm::Text => write_drawing(circuit, per_block(wrap), out),
        PictureForm::Svg => svg_circuit(circuit, per_block(wrap), out),
        PictureForm::Latex => latex_circuit(circuit, per_block(wrap), out),
    }
}

/// Sends the picture of a network, as that of a circuit.
pub(crate) fn put_net_drawing<O: Sink>(
    lines: &Circuit,
    net: &Net,
    picture: PictureForm,
    wrap: u16,
    out: &mut O,
) -> Result<(), WriteFault>
    ensures { Sends (O.view out.old) (network_text picture wrap lines.now net.now.ops) result (O.view out.new) }
{
    match picture {
        PictureForm::Text => write_network(lines, net, per_block(wrap), out),
        PictureForm::Svg => svg_network(lines, net, per_block(wrap), out),
        PictureForm::Latex => latex_network(lines, net, per_block(wrap), out),
    }
}
