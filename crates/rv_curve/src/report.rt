ghost use Rattle.std.specs.Prelude.{◌≡◌, flat_map};
ghost use Rattle.rv_io.specs.Sink.{Sends};
ghost use Rattle.rv_io.specs.Writer.{Adds};
ghost use Rattle.rv_curve.specs.Report.{call_text, counts_text, curve_text, goal_word, row_text, search_words};

use crate::row::{Counts, Row};
use rv_io::{Sink, WriteFault, Writer};
use rv_price::Goal;

/// The command that searches for circuits.
#[derive(Clone, Copy)]
pub enum Search {
    Realize,
    Compute,
}

/// Circuits that one command was asked for, by one goal and one seed.
#[derive(Drop)]
pub struct Curve {
    pub search: Search,
    pub goal: Goal,
    pub seed: u16,
    pub rows: Vec<Row>,
}

fn search_words(search: Search) -> &'static [u8]
    ensures { result.now ≡ search_words search }
{
    match search {
        Search::Realize => b"rev realize --lines ",
        Search::Compute => b"rev compute --lines ",
    }
}

fn goal_word(goal: Goal) -> &'static [u8]
    ensures { result.now ≡ goal_word goal }
{
    match goal {
        Goal::Lines => b"lines",
        Goal::T => b"t",
        Goal::Cx => b"cx",
        Goal::Quantum => b"quantum",
        Goal::Gates => b"gates",
    }
}

fn put_counts<O: Sink>(writer: &mut Writer, out: &mut O, counts: Option<Counts>)
    ensures { Adds writer.old (O.view out.old) (counts_text counts) writer.new (O.view out.new) }
{
    match counts {
        Some(counts) => {
            writer.put_number(out, u128::from(counts.t));
            writer.put(out, b" ");
            writer.put_number(out, u128::from(counts.cnot));
        }
        None => writer.put(out, b"- -"),
    }
}

fn put_call<O: Sink>(
    writer: &mut Writer,
    out: &mut O,
    search: Search,
    goal: Goal,
    seed: u16,
    row: Row,
)
    ensures { Adds writer.old (O.view out.old) (call_text search goal seed row) writer.new (O.view out.new) }
{
    writer.put(out, search_words(search));
    writer.put_number(out, u128::from(row.most));
    writer.put(out, b" --goal ");
    writer.put(out, goal_word(goal));
    writer.put(out, b" --effort ");
    writer.put_number(out, u128::from(row.effort));
    writer.put(out, b" --seed ");
    writer.put_number(out, u128::from(seed));
}

fn put_row<O: Sink>(
    writer: &mut Writer,
    out: &mut O,
    search: Search,
    goal: Goal,
    seed: u16,
    row: Row,
)
    ensures { Adds writer.old (O.view out.old) (row_text search goal seed row) writer.new (O.view out.new) }
{
    writer.put_number(out, u128::from(row.lines));
    writer.put(out, b" ");
    put_counts(writer, out, row.counts);
    writer.put(out, b" ");
    writer.put_number(out, row.quantum);
    writer.put(out, b" ");
    writer.put_number(out, u128::from(row.gates));
    writer.put(out, b" ");
    put_call(writer, out, search, goal, seed, row);
    writer.put(out, b"\n");
}

fn put_rows<O: Sink>(
    writer: &mut Writer,
    out: &mut O,
    search: Search,
    goal: Goal,
    seed: u16,
    rows: &[Row],
)
    ensures { Adds writer.old (O.view out.old) (flat_map (row_text search goal seed) rows.now) writer.new (O.view out.new) }
{
    for row in rows {
        put_row(writer, out, search, goal, seed, *row);
    }
}

/// Sends the report: a line of names, and one for each circuit. Takes no memory.
pub fn write_curve<O: Sink>(curve: &Curve, out: &mut O) -> Result<(), WriteFault>
    ensures { Sends (O.view out.old) (curve_text curve.now.search curve.now.goal curve.now.seed curve.now.rows.items) result (O.view out.new) }
{
    let mut writer = Writer::new();
    writer.put(out, b"lines t cnot quantum gates call\n");
    put_rows(
        &mut writer,
        out,
        curve.search,
        curve.goal,
        curve.seed,
        &curve.rows,
    );
    writer.finish(out)
}
