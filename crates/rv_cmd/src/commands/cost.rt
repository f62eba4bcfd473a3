ghost use Rattle.std.specs.Prelude.{◌≡◌, length};
ghost use Rattle.rv_io.specs.Sink.{Sends};
ghost use Rattle.rv_io.specs.Writer.{Adds};
ghost use Rattle.rv_cmd.specs.Commands.Cost.{TellsCircuitCost, TellsNetCost, circuit_cost_csv, circuit_cost_json};
ghost use Rattle.rv_cmd.specs.Commands.Cost.{circuit_cost_lines, circuit_cost_report, circuit_cost_text, cost_row};
ghost use Rattle.rv_cmd.specs.Commands.Cost.{csv_number, json_field, net_cost_csv, net_cost_json, net_cost_lines};
ghost use Rattle.rv_cmd.specs.Commands.Cost.{net_cost_text, program_cost_report, report_line};
ghost use Rattle.rv_cmd.specs.Names.{names_read};
ghost use Rattle.rv_cmd.specs.inside.Making.{Makes};

use crate::making::{OneInput, of_one};
use crate::product::{Made, Product};
use rv_cost::{CircuitCost, NetCost, circuit_cost, net_cost};
use rv_faults::{Refusal, Unmade};
use rv_gate::Circuit;
use rv_io::{Files, Sink, WriteFault, Writer};
use rv_qasm::{Program, QasmReader};
use rv_real::RealReader;
use rv_words::{Form, ReportForm, Settings};
use std::alloc::Global;

/// What a circuit costs, or the network of an OpenQASM text.
pub(crate) fn cost<F: Files>(
    alloc: Global,
    settings: &Settings,
    files: &mut F,
) -> Result<Made, Unmade>
    requires { length (names_read settings.now) ≡ 1 }
    ensures { Makes (cost_row settings.now.origin settings.now.report) (names_read settings.now) (F.view files.old)
        (F.view files.new) result }
{
    let form = settings.report;
    match settings.origin {
        Form::Qasm => of_one(alloc, settings, files, &OfProgram { form }),
        _ => of_one(alloc, settings, files, &OfCircuit { form }),
    }
}

#[derive(Clone, Copy)]
struct OfCircuit {
    form: ReportForm,
}

impl OneInput for OfCircuit {
    type Text = RealReader;

    ghost report = { λ command. circuit_cost_report command.form };

    ghost Means = { λ command. TellsCircuitCost command.form };

    fn make(&self, _alloc: Global, circuit: &Circuit) -> Result<Product, Refusal> {
        Ok(Product::CircuitCost(self.form, circuit_cost(circuit)))
    }
}

#[derive(Clone, Copy)]
struct OfProgram {
    form: ReportForm,
}

impl OneInput for OfProgram {
    type Text = QasmReader;

    ghost report = { λ command. program_cost_report command.form };

    ghost Means = { λ command. TellsNetCost command.form };

    fn make(&self, _alloc: Global, program: &Program) -> Result<Product, Refusal> {
        Ok(Product::NetCost(self.form, net_cost(program.net())))
    }
}

/// Sends the costs of a circuit.
pub(crate) fn put_circuit_cost<O: Sink>(
    form: ReportForm,
    cost: &CircuitCost,
    out: &mut O,
) -> Result<(), WriteFault>
    ensures { Sends (O.view out.old) (circuit_cost_text form cost.now) result (O.view out.new) }
{
    match form {
        ReportForm::Text => put_circuit_lines(cost, out),
        ReportForm::Json => put_circuit_json(cost, out),
        ReportForm::Csv => put_circuit_csv(cost, out),
    }
}

/// Sends the costs of a network.
pub(crate) fn put_net_cost<O: Sink>(
    form: ReportForm,
    cost: &NetCost,
    out: &mut O,
) -> Result<(), WriteFault>
    ensures { Sends (O.view out.old) (net_cost_text form cost.now) result (O.view out.new) }
{
    match form {
        ReportForm::Text => put_net_lines(cost, out),
        ReportForm::Json => put_net_json(cost, out),
        ReportForm::Csv => put_net_csv(cost, out),
    }
}

fn put_circuit_lines<O: Sink>(cost: &CircuitCost, out: &mut O) -> Result<(), WriteFault>
    ensures { Sends (O.view out.old) (circuit_cost_lines cost.now) result (O.view out.new) }
{
    let mut writer = Writer::new();
    put_line(&mut writer, out, b"lines", u128::from(cost.lines));
    put_line(&mut writer, out, b"gates", u128::from(cost.gates));
    put_line(&mut writer, out, b"controls", u128::from(cost.controls));
    put_line(&mut writer, out, b"quantum", cost.quantum);
    put_line(&mut writer, out, b"depth", u128::from(cost.depth));
    writer.finish(out)
}

fn put_circuit_json<O: Sink>(cost: &CircuitCost, out: &mut O) -> Result<(), WriteFault>
    ensures { Sends (O.view out.old) (circuit_cost_json cost.now) result (O.view out.new) }
{
    let mut writer = Writer::new();
    put_field(&mut writer, out, b"{\"", b"lines", u128::from(cost.lines));
    put_field(&mut writer, out, b",\"", b"gates", u128::from(cost.gates));
    put_field(
        &mut writer,
        out,
        b",\"",
        b"controls",
        u128::from(cost.controls),
    );
    put_field(&mut writer, out, b",\"", b"quantum", cost.quantum);
    put_field(&mut writer, out, b",\"", b"depth", u128::from(cost.depth));
    writer.put(out, b"}\n");
    writer.finish(out)
}

fn put_circuit_csv<O: Sink>(cost: &CircuitCost, out: &mut O) -> Result<(), WriteFault>
    ensures { Sends (O.view out.old) (circuit_cost_csv cost.now) result (O.view out.new) }
{
    let mut writer = Writer::new();
    writer.put(out, b"lines,gates,controls,quantum,depth\n");
    put_value(&mut writer, out, u128::from(cost.lines), b",");
    put_value(&mut writer, out, u128::from(cost.gates), b",");
    put_value(&mut writer, out, u128::from(cost.controls), b",");
    put_value(&mut writer, out, cost.quantum, b",");
    put_value(&mut writer, out, u128::from(cost.depth), b"\n");
    writer.finish(out)
}

fn put_net_lines<O: Sink>(cost: &NetCost, out: &mut O) -> Result<(), WriteFault>
    ensures { Sends (O.view out.old) (net_cost_lines cost.now) result (O.view out.new) }
{
    let mut writer = Writer::new();
    put_line(&mut writer, out, b"lines", u128::from(cost.lines));
    put_line(&mut writer, out, b"operations", u128::from(cost.operations));
    put_line(&mut writer, out, b"t", u128::from(cost.t));
    put_line(&mut writer, out, b"h", u128::from(cost.h));
    put_line(&mut writer, out, b"cnot", u128::from(cost.cnot));
    put_line(&mut writer, out, b"depth", u128::from(cost.depth));
    put_line(&mut writer, out, b"t-depth", u128::from(cost.t_depth));
    writer.finish(out)
}

fn put_net_json<O: Sink>(cost: &NetCost, out: &mut O) -> Result<(), WriteFault>
    ensures { Sends (O.view out.old) (net_cost_json cost.now) result (O.view out.new) }
{
    let mut writer = Writer::new();
    put_field(&mut writer, out, b"{\"", b"lines", u128::from(cost.lines));
    put_field(
        &mut writer,
        out,
        b",\"",
        b"operations",
        u128::from(cost.operations),
    );
    put_field(&mut writer, out, b",\"", b"t", u128::from(cost.t));
    put_field(&mut writer, out, b",\"", b"h", u128::from(cost.h));
    put_field(&mut writer, out, b",\"", b"cnot", u128::from(cost.cnot));
    put_field(&mut writer, out, b",\"", b"depth", u128::from(cost.depth));
    put_field(
        &mut writer,
        out,
        b",\"",
        b"t-depth",
        u128::from(cost.t_depth),
    );
    writer.put(out, b"}\n");
    writer.finish(out)
}

fn put_net_csv<O: Sink>(cost: &NetCost, out: &mut O) -> Result<(), WriteFault>
    ensures { Sends (O.view out.old) (net_cost_csv cost.now) result (O.view out.new) }
{
    let mut writer = Writer::new();
    writer.put(out, b"lines,operations,t,h,cnot,depth,t-depth\n");
    put_value(&mut writer, out, u128::from(cost.lines), b",");
    put_value(&mut writer, out, u128::from(cost.operations), b",");
    put_value(&mut writer, out, u128::from(cost.t), b",");
    put_value(&mut writer, out, u128::from(cost.h), b",");
    put_value(&mut writer, out, u128::from(cost.cnot), b",");
    put_value(&mut writer, out, u128::from(cost.depth), b",");
    put_value(&mut writer, out, u128::from(cost.t_depth), b"\n");
    writer.finish(out)
}

// Sends a field of an object.
fn put_field<O: Sink>(writer: &mut Writer, out: &mut O, before: &[u8], name: &[u8], number: u128)
    ensures { Adds writer.old (O.view out.old) (json_field before.now name.now number) writer.new (O.view out.new) }
{
    writer.put(out, before);
    writer.put(out, name);
    writer.put(out, b"\":");
    writer.put_number(out, number);
}

// Sends a number of a line of numbers.
fn put_value<O: Sink>(writer: &mut Writer, out: &mut O, number: u128, after: &[u8])
    ensures { Adds writer.old (O.view out.old) (csv_number number after.now) writer.new (O.view out.new) }
{
    writer.put_number(out, number);
    writer.put(out, after);
}

/// Sends a line of a report.
pub(crate) fn put_line<O: Sink>(writer: &mut Writer, out: &mut O, name: &[u8], number: u128)
    ensures { Adds writer.old (O.view out.old) (report_line name.now number) writer.new (O.view out.new) }
{
    writer.put(out, name);
    writer.put(out, b" ");
    writer.put_number(out, number);
    writer.put(out, b"\n");
}
