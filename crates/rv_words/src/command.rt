// The commands: a row each. All else that is said of a command's arguments follows from its row.
ghost use Rattle.std.specs.Prelude.{◌≡◌, ◌==◌, Some};
ghost use Rattle.std.specs.List.{list_any};
ghost use Rattle.std.specs.Str.{bytes_eq};
ghost use Rattle.rv_words.specs.Table.{command_of, is_used, needs_goal, usage_of};

use crate::options::{
    ALL, AS, AUX, BLOCKS, BY, CONSTANTS, CURVE, EFFORT, FROM, GATES, GOAL, LIBRARY, LINES, MARKS,
    METHOD, NODES, SEED, SIMPLIFY, TO, WRAP,
};
use rv_tbs::Method;

/// What a run is to do.
#[derive(Clone, Copy)]
pub enum Command {
    /// Writes a circuit that computes a permutation.
    Synth,
    /// Writes a permutation that gives a function.
    Embed,
    /// Writes a cascade that adds a function to its outputs, or the reduced list of cubes.
    Esop,
    /// Writes a circuit that is simplified by pairs and templates.
    Templates,
    /// Writes a circuit of NOT, CNOT and Toffoli gates that does what a circuit does.
    Decompose,
    /// Writes the network of a circuit, over the gates of OpenQASM.
    Map,
    /// Writes what a circuit or a network costs.
    Cost,
    /// Writes what a circuit makes of words.
    Simulate,
    /// Writes the circuit of a network of X, CNOT, Toffoli and swap gates.
    ToReal,
    /// Writes the network of a function or a permutation.
    Flow,
    /// Writes what each step makes of a generated permutation.
    Demo,
    /// Writes a network with its phase gates folded.
    Fold,
    /// Writes a network with fewer operations and fewer T, found by a search.
    Reduce,
    /// Writes whether a network does exactly what a circuit does.
    Check,
    /// Writes a circuit of single-target gates that computes a permutation.
    Single,
    /// Writes a circuit whose gates touch neighbouring lines alone, which does what a circuit does.
    Route,
    /// Writes a drawing of a circuit or a network.
    Draw,
    /// Writes whether a circuit has the function of another circuit, a permutation or a logic network, or
    /// one that a table allows.
    Compare,
    /// Writes a circuit that does the same and is no dearer, found by a search.
    Resynth,
    /// Writes a circuit that adds what a logic network computes to its outputs, found by a search.
    Compute,
    /// Writes a circuit that computes a permutation, and than which none has fewer gates.
    Optimal,
    /// Writes a circuit that realizes a table, or computes a permutation, found by a search; or what several cost.
    Realize,
}

// A command's name, how many inputs it takes at the least and at the most, and the options that it uses.
#[derive(Clone, Copy)]
pub(crate) struct Usage {
    pub(crate) name: &'static str,
    pub(crate) least: u8,
    pub(crate) most: u8,
    pub(crate) options: &'static [u8],
}

fn row(name: &'static str, least: u8, most: u8, options: &'static [u8]) -> Usage
    ensures name { result.name.now ≡ name.entry.now }
    ensures least { result.least ≡ least }
    ensures most { result.most ≡ most }
    ensures options { result.options.now ≡ options.entry.now }
{
    Usage {
        name,
        least,
        most,
        options,
    }
}

// What a command takes.
pub(crate) fn usage_of(command: Command) -> Usage
    ensures name { result.name.now ≡ (usage_of command).name }
    ensures least { result.least ≡ (usage_of command).least }
    ensures most { result.most ≡ (usage_of command).most }
    ensures options { result.options.now ≡ (usage_of command).options }
{
    match command {
        Command::Synth => row("synth", 0, 1, &[METHOD]),
        Command::Embed => row("embed", 0, 1, &[]),
        Command::Esop => row("esop", 0, 1, &[TO, GOAL, EFFORT, SEED]),
        Command::Templates => row("templates", 0, 1, &[LIBRARY]),
        Command::Decompose => row("decompose", 0, 1, &[AUX]),
        Command::Map => row("map", 0, 1, &[AUX, BLOCKS]),
        Command::Cost => row("cost", 0, 1, &[FROM, AS]),
        Command::Simulate => row("simulate", 1, 2, &[ALL]),
        Command::ToReal => row("toreal", 0, 1, &[]),
        Command::Flow => row("flow", 0, 1, &[METHOD, FROM, AUX, SIMPLIFY, BLOCKS]),
        Command::Demo => row("demo", 0, 0, &[LINES, SEED]),
        Command::Fold => row("fold", 0, 1, &[]),
        Command::Reduce => row("reduce", 0, 1, &[GOAL, EFFORT, SEED]),
        Command::Check => row("check", 1, 2, &[BY, FROM, CONSTANTS]),
        Command::Single => row("single", 0, 1, &[]),
        Command::Route => row("route", 0, 1, &[]),
        Command::Draw => row("draw", 0, 1, &[FROM, WRAP, AS]),
        Command::Compare => row("compare", 1, 2, &[FROM, ALL, NODES]),
        Command::Resynth => row("resynth", 0, 1, &[GOAL, EFFORT, SEED, MARKS]),
        Command::Compute => row("compute", 0, 1, &[LINES, GOAL, EFFORT, SEED, CURVE]),
        Command::Optimal => row("optimal", 0, 1, &[GATES]),
        Command::Realize => row("realize", 0, 1, &[FROM, LINES, GOAL, EFFORT, SEED, CURVE]),
    }
}

static COMMANDS: [Command; 22] = [
    Command::Synth,
    Command::Embed,
    Command::Esop,
    Command::Templates,
    Command::Decompose,
    Command::Map,
    Command::Cost,
    Command::Simulate,
    Command::ToReal,
    Command::Flow,
    Command::Demo,
    Command::Fold,
    Command::Reduce,
    Command::Check,
    Command::Single,
    Command::Route,
    Command::Draw,
    Command::Compare,
    Command::Resynth,
    Command::Compute,
    Command::Optimal,
    Command::Realize,
];

// The command of this name.
pub(crate) fn command_of(name: &str) -> Option<Command>
    ensures { result ≡ command_of name.now }
{
    COMMANDS
        .iter()
        .copied()
        .find(|command| name == usage_of(*command).name)
}

impl Command {
    /// What it is called.
    pub fn name(self) -> &'static str
        ensures name { result.now ≡ (usage_of self).name }
        ensures read { command_of result.now ≡ Some self }
    {
        usage_of(self).name
    }
}

// Whether a command uses the option at a place.
pub(crate) fn is_used(command: Command, place: u8) -> bool
    ensures { result ≡ is_used command place }
{
    usage_of(command).options.iter().any(|used| *used == place)
}

// Whether a command uses the option at a place only for a search, which `--goal` asks for.
pub(crate) fn needs_goal(command: Command, place: u8) -> bool
    ensures { result ≡ needs_goal command place }
{
    match command {
        Command::Esop | Command::Reduce => place == EFFORT || place == SEED,
        _ => false,
    }
}

/// The form of a text that is read or written.
#[derive(Clone, Copy)]
pub enum Form {
    /// RevLib's `.real` format.
    Real,
    /// Espresso's PLA format.
    Pla,
    /// OpenQASM 2.0.
    Qasm,
    /// The numbers of a permutation.
    Perm,
    /// A logic network in BLIF.
    Blif,
}

/// How the circuit of a permutation is found.
#[derive(Clone, Copy)]
pub enum Synthesis {
    /// By transformations, row by row.
    Rows(Method),
    /// By single-target gates.
    SingleTargets,
}

/// What a search is to make small.
#[derive(Clone, Copy)]
pub enum Goal {
    /// Products of a list.
    Cubes,
    /// Gates.
    Gates,
    /// Quantum cost.
    Quantum,
    /// T gates of the network.
    T,
    /// Lines.
    Lines,
    /// CNOT gates of the network.
    Cx,
    /// Operations of the network.
    Ops,
    /// Depth of the network.
    Depth,
}

/// The blocks that a network is made of.
#[derive(Clone, Copy)]
pub enum Blocks {
    /// A block for each Toffoli gate, that does exactly what the gate does.
    Exact,
    /// Blocks whose phases cancel in pairs.
    Relative,
    /// The Toffoli gates themselves.
    Toffoli,
    /// Blocks in which CNOT joins neighbours, where a gate's lines are a row.
    Near,
    /// Blocks of four T, with the phases that they lack joined over the whole circuit.
    Joined,
}

/// How a network is checked against a circuit.
#[derive(Clone, Copy)]
pub enum CheckedBy {
    /// From each word in turn, so the first that differs is told.
    Words,
    /// By sums over paths, from all words at once.
    Paths,
}

/// The form of a drawing.
#[derive(Clone, Copy)]
pub enum PictureForm {
    /// Rows of symbols.
    Text,
    /// Scalable vector graphics.
    Svg,
    /// LaTeX, by the package quantikz.
    Latex,
}

/// The form of a report of costs.
#[derive(Clone, Copy)]
pub enum ReportForm {
    /// A line for each number.
    Text,
    /// An object of JSON, in a line.
    Json,
    /// Comma-separated values: a line of names and one of numbers.
    Csv,
}
