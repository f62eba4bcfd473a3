ghost use Rattle.std.specs.Prelude.{◌≡◌, ◌≤◌, ◌<◌, ◌∷◌, [], ℕ, All, length, map, IsOkAnd};
ghost use Rattle.rv_io.specs.Sink.{Sends};
ghost use Rattle.rv_io.specs.Writer.{Adds};
ghost use Rattle.rv_text.specs.Spelled.{spelled};
ghost use Rattle.rv_gate.specs.Word.{has};
ghost use Rattle.rv_pla.specs.Cube.{symbol, IsCube};
ghost use Rattle.rv_pla.specs.Reading.{pla_of};
ghost use Rattle.rv_pla.specs.Text.{cube_words, esop_text, head_lines, input_character, input_part, output_part};
ghost use Rattle.rv_pla.specs.Text.{IsEsopOf};

use crate::cube::{Cube, MOST_INPUTS, MOST_OUTPUTS};
use crate::pla::MOST_TERMS;
use crate::sets::has;
use rv_io::{Sink, WriteFault, Writer};
use rv_text::bit_byte;

/// Sends the text of a PLA of type esop: its sizes, its type, the number of its terms, a line for each
/// cube, and `.e`. Takes no memory.
pub fn write_esop_pla<O: Sink>(
    inputs: u8,
    outputs: u8,
    cubes: &[Cube],
    sink: &mut O,
) -> Result<(), WriteFault>
    requires some_inputs { 1 ≤ inputs }
    requires few_inputs { inputs ≤ MOST_INPUTS }
    requires some_outputs { 1 ≤ outputs }
    requires few_outputs { outputs ≤ MOST_OUTPUTS }
    requires cubes { All (IsCube inputs outputs) cubes.now }
    ensures sends { Sends (O.view sink.old) (esop_text inputs outputs cubes.now) result (O.view sink.new) }

    // What was sent denotes a PLA of these cubes, where these are no more than the terms of a PLA.
    ensures back { length cubes.now ≤ MOST_TERMS
        → IsOkAnd (pla_of (esop_text inputs outputs cubes.now)) (IsEsopOf inputs outputs cubes.now) }
{
    let mut writer = Writer::new();
    put_head(&mut writer, sink, inputs, outputs, cubes.len());
    put_cubes(&mut writer, sink, inputs, outputs, cubes);
    writer.put(sink, b".e\n");
    writer.finish(sink)
}

// The lines before the cubes.
fn put_head<O: Sink>(writer: &mut Writer, sink: &mut O, inputs: u8, outputs: u8, count: usize)
    ensures { Adds writer.old (O.view sink.old) (spelled (head_lines inputs outputs count)) writer.new
        (O.view sink.new) }
{
    writer.put(sink, b".i ");
    writer.put_number(sink, u128::from(inputs));
    writer.put(sink, b"\n.o ");
    writer.put_number(sink, u128::from(outputs));
    writer.put(sink, b"\n.type esop\n.p ");
    writer.put_number(sink, count as u128);
    writer.put(sink, b"\n");
}

// A line for each cube.
fn put_cubes<O: Sink>(writer: &mut Writer, sink: &mut O, inputs: u8, outputs: u8, cubes: &[Cube])
    requires few_inputs { inputs ≤ MOST_INPUTS }
    requires few_outputs { outputs ≤ MOST_OUTPUTS }
    ensures { Adds writer.old (O.view sink.old) (spelled (map (cube_words inputs outputs) cubes.now)) writer.new
        (O.view sink.new) }
{
    for cube in cubes {
        put_cube(writer, sink, inputs, outputs, *cube);
    }
}

fn put_cube<O: Sink>(writer: &mut Writer, sink: &mut O, inputs: u8, outputs: u8, cube: Cube)
    requires few_inputs { inputs ≤ MOST_INPUTS }
    requires few_outputs { outputs ≤ MOST_OUTPUTS }
    ensures { Adds writer.old (O.view sink.old) (spelled (cube_words inputs outputs cube ∷ [])) writer.new
        (O.view sink.new) }
{
    put_inputs(writer, sink, inputs, cube);
    writer.put(sink, b" ");
    put_outputs(writer, sink, outputs, cube);
    writer.put(sink, b"\n");
}

fn put_inputs<O: Sink>(writer: &mut Writer, sink: &mut O, inputs: u8, cube: Cube)
    requires { inputs ≤ MOST_INPUTS }
    ensures { Adds writer.old (O.view sink.old) (input_part inputs cube) writer.new (O.view sink.new) }
{
    for input in 0..inputs {
        writer.put(sink, &[input_character(cube, input)]);
    }
}

fn input_character(cube: Cube, input: u8) -> u8
    requires { input < MOST_INPUTS }
    ensures { result ≡ input_character (symbol cube input) }
{
    if !has(cube.care, input) {
        b'-'
    } else if has(cube.want, input) {
        b'1'
    } else {
        b'0'
    }
}

fn put_outputs<O: Sink>(writer: &mut Writer, sink: &mut O, outputs: u8, cube: Cube)
    requires { outputs ≤ MOST_OUTPUTS }
    ensures { Adds writer.old (O.view sink.old) (output_part outputs cube) writer.new (O.view sink.new) }
{
    for output in 0..outputs {
        writer.put(sink, &[bit_byte(has(cube.outs, output))]);
    }
}
