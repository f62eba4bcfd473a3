// The values of the options. Of a bad value the option's place is told.
ghost use Rattle.std.specs.Prelude.{◌≡◌, IfOk};
ghost use Rattle.clap.specs.Matches.{first_value, found_of};
ghost use Rattle.rv_words.specs.Values.{IsLineCount, IsNodeCount, aux_in, aux_of, blocks_in, blocks_of, checked_in, checked_of};
ghost use Rattle.rv_words.specs.Values.{effort_in, form_to};
ghost use Rattle.rv_words.specs.Values.{form_from, gates_in, gates_of};
ghost use Rattle.rv_words.specs.Values.{goal_in, goal_of, lines_in, method_in, most_lines, picture_in, picture_of};
ghost use Rattle.rv_words.specs.Values.{nodes_in, report_in, report_of};
ghost use Rattle.rv_words.specs.Values.{usual_effort, usual_goal, usual_lines, usual_seed};
ghost use Rattle.rv_words.specs.Values.{method_of, origin_in, seed_in, to_in, usual_form, values_in, wrap_in};

use crate::number::{count_in, number_in};
use crate::options::{
    AS, AUX, BLOCKS, BY, EFFORT, FROM, GATES, GOAL, LINES, METHOD, NODES, SEED, TO, WRAP,
};
use crate::{Blocks, CheckedBy, Command, Form, Goal, PictureForm, ReportForm, Synthesis};
use clap::ArgMatches;
use rv_diagram::MOST_NODES;
use rv_gate::MOST_LINES;
use rv_mct::Aux;
use rv_optimal::Library;
use rv_perm::MOST_DEMO_LINES;
use rv_tbs::Method;
use std::marker::Model;

/// The greatest effort of a search.
pub const MOST_EFFORT: u16 = 1000;

// The values of the options that take one of a list or a range.
#[derive(Drop)]
pub(crate) struct Values {
    pub(crate) method: Synthesis,
    pub(crate) to: Form,
    pub(crate) origin: Form,
    pub(crate) aux: Aux,
    pub(crate) lines: u8,
    pub(crate) seed: u16,
    pub(crate) wrap: u16,
    pub(crate) goal: Option<Goal>,
    pub(crate) effort: u16,
    pub(crate) blocks: Blocks,
    pub(crate) picture: PictureForm,
    pub(crate) gates: Library,
    pub(crate) checked: CheckedBy,
    pub(crate) report: ReportForm,
    pub(crate) nodes: u32,
}

impl Model for Values {
    ghost use Rattle.rv_words.specs.Values.{Values};

    ghost Value = { Values };

    ghost view = { λ v. record {
      method = v.method;
      to = v.to;
      origin = v.origin;
      aux = v.aux;
      lines = v.lines;
      seed = v.seed;
      wrap = v.wrap;
      goal = v.goal;
      effort = v.effort;
      blocks = v.blocks;
      picture = v.picture;
      gates = v.gates;
      checked = v.checked;
      report = v.report;
      nodes = v.nodes;
    } };
}

fn method_of(command: Command, value: &str) -> Option<Synthesis>
    ensures { result ≡ method_of command value.now }
{
    match value {
        "best" => Some(Synthesis::Rows(Method::Best)),
        "out" => Some(Synthesis::Rows(Method::Out)),
        "both" => Some(Synthesis::Rows(Method::Both)),
        "single" => match command {
            Command::Flow => Some(Synthesis::SingleTargets),
            _ => None,
        },
        _ => None,
    }
}

fn form_to(value: &str) -> Option<Form>
    ensures { result ≡ form_to value.now }
{
    match value {
        "real" => Some(Form::Real),
        "pla" => Some(Form::Pla),
        _ => None,
    }
}

fn form_from(command: Command, value: &str) -> Option<Form>
    ensures { result ≡ form_from command value.now }
{
    match command {
        Command::Flow | Command::Realize => match value {
            "pla" => Some(Form::Pla),
            "perm" => Some(Form::Perm),
            _ => None,
        },
        Command::Compare => match value {
            "real" => Some(Form::Real),
            "pla" => Some(Form::Pla),
            "perm" => Some(Form::Perm),
            "blif" => Some(Form::Blif),
            _ => None,
        },
        _ => match value {
            "real" => Some(Form::Real),
            "qasm" => Some(Form::Qasm),
            _ => None,
        },
    }
}

// The form of an input that is not told.
fn usual_form(command: Command) -> Form
    ensures { result ≡ usual_form command }
{
    match command {
        Command::Flow | Command::Realize => Form::Pla,
        _ => Form::Real,
    }
}

fn aux_of(value: &str) -> Option<Aux>
    ensures { result ≡ aux_of value.now }
{
    match value {
        "borrowed" => Some(Aux::Borrowed),
        "clean" => Some(Aux::Clean),
        _ => None,
    }
}

fn goal_of(command: Command, value: &str) -> Option<Goal>
    ensures { result ≡ goal_of command value.now }
{
    match command {
        Command::Resynth => match value {
            "quantum" => Some(Goal::Quantum),
            "t" => Some(Goal::T),
            "gates" => Some(Goal::Gates),
            _ => None,
        },
        Command::Compute => match value {
            "lines" => Some(Goal::Lines),
            "t" => Some(Goal::T),
            "quantum" => Some(Goal::Quantum),
            "gates" => Some(Goal::Gates),
            _ => None,
        },
        Command::Realize => match value {
            "t" => Some(Goal::T),
            "cx" => Some(Goal::Cx),
            "quantum" => Some(Goal::Quantum),
            "gates" => Some(Goal::Gates),
            "lines" => Some(Goal::Lines),
            _ => None,
        },
        Command::Reduce => match value {
            "ops" => Some(Goal::Ops),
            "t" => Some(Goal::T),
            "cx" => Some(Goal::Cx),
            "depth" => Some(Goal::Depth),
            _ => None,
        },
        _ => match value {
            "cubes" => Some(Goal::Cubes),
            "gates" => Some(Goal::Gates),
            "quantum" => Some(Goal::Quantum),
            "t" => Some(Goal::T),
            _ => None,
        },
    }
}

// The goal that is not told.
fn usual_goal(command: Command) -> Option<Goal>
    ensures { result ≡ usual_goal command }
{
    match command {
        Command::Resynth => Some(Goal::Quantum),
        Command::Compute | Command::Realize => Some(Goal::T),
        _ => None,
    }
}

fn usual_effort(command: Command) -> u16
    ensures { result ≡ usual_effort command }
{
    match command {
        Command::Resynth | Command::Reduce => 20,
        _ => 100,
    }
}

fn usual_seed(command: Command) -> u16
    ensures { result ≡ usual_seed command }
{
    match command {
        Command::Demo => 1,
        _ => 0,
    }
}

fn blocks_of(value: &str) -> Option<Blocks>
    ensures { result ≡ blocks_of value.now }
{
    match value {
        "exact" => Some(Blocks::Exact),
        "relative" => Some(Blocks::Relative),
        "toffoli" => Some(Blocks::Toffoli),
        "near" => Some(Blocks::Near),
        "joined" => Some(Blocks::Joined),
        _ => None,
    }
}

fn picture_of(value: &str) -> Option<PictureForm>
    ensures { result ≡ picture_of value.now }
{
    match value {
        "text" => Some(PictureForm::Text),
        "svg" => Some(PictureForm::Svg),
        "latex" => Some(PictureForm::Latex),
        _ => None,
    }
}

fn report_of(value: &str) -> Option<ReportForm>
    ensures { result ≡ report_of value.now }
{
    match value {
        "text" => Some(ReportForm::Text),
        "json" => Some(ReportForm::Json),
        "csv" => Some(ReportForm::Csv),
        _ => None,
    }
}

fn checked_of(value: &str) -> Option<CheckedBy>
    ensures { result ≡ checked_of value.now }
{
    match value {
        "words" => Some(CheckedBy::Words),
        "paths" => Some(CheckedBy::Paths),
        _ => None,
    }
}

fn gates_of(value: &str) -> Option<Library>
    ensures { result ≡ gates_of value.now }
{
    match value {
        "mct" => Some(Library::Positive),
        "mpmct" => Some(Library::Mixed),
        _ => None,
    }
}

fn method_in(matches: &ArgMatches<'_>, command: Command) -> Result<Synthesis, u8>
    ensures { result ≡ method_in command (first_value (found_of matches.now)) }
{
    match matches.get_str("method") {
        Some(value) => method_of(command, value).ok_or(METHOD),
        None => Ok(Synthesis::Rows(Method::Best)),
    }
}

fn to_in(matches: &ArgMatches<'_>) -> Result<Form, u8>
    ensures { result ≡ to_in (first_value (found_of matches.now)) }
{
    match matches.get_str("to") {
        Some(value) => form_to(value).ok_or(TO),
        None => Ok(Form::Real),
    }
}

fn origin_in(matches: &ArgMatches<'_>, command: Command) -> Result<Form, u8>
    ensures { result ≡ origin_in command (first_value (found_of matches.now)) }
{
    match matches.get_str("from") {
        Some(value) => form_from(command, value).ok_or(FROM),
        None => Ok(usual_form(command)),
    }
}

fn aux_in(matches: &ArgMatches<'_>) -> Result<Aux, u8>
    ensures { result ≡ aux_in (first_value (found_of matches.now)) }
{
    match matches.get_str("aux") {
        Some(value) => aux_of(value).ok_or(AUX),
        None => Ok(Aux::Borrowed),
    }
}

// How many lines there may be.
fn most_lines(command: Command) -> u8
    ensures { result ≡ most_lines command }
{
    match command {
        Command::Demo => MOST_DEMO_LINES,
        _ => MOST_LINES,
    }
}

fn usual_lines(command: Command) -> u8
    ensures value { result ≡ usual_lines command }
    ensures within { IsLineCount command result }
{
    match command {
        Command::Demo => 4,
        _ => MOST_LINES,
    }
}

fn lines_in(matches: &ArgMatches<'_>, command: Command) -> Result<u8, u8>
    ensures value { result ≡ lines_in command (first_value (found_of matches.now)) }
    ensures within { IfOk result (IsLineCount command) }
{
    match matches.get_str("lines") {
        Some(value) => match number_in(1, u16::from(most_lines(command)), value) {
            Some(lines) => Ok(lines as u8),
            None => Err(LINES),
        },
        None => Ok(usual_lines(command)),
    }
}

fn seed_in(matches: &ArgMatches<'_>, command: Command) -> Result<u16, u8>
    ensures { result ≡ seed_in command (first_value (found_of matches.now)) }
{
    match matches.get_str("seed") {
        Some(value) => number_in(0, 65535, value).ok_or(SEED),
        None => Ok(usual_seed(command)),
    }
}

fn wrap_in(matches: &ArgMatches<'_>) -> Result<u16, u8>
    ensures { result ≡ wrap_in (first_value (found_of matches.now)) }
{
    match matches.get_str("wrap") {
        Some(value) => number_in(0, 65535, value).ok_or(WRAP),
        None => Ok(24),
    }
}

fn goal_in(matches: &ArgMatches<'_>, command: Command) -> Result<Option<Goal>, u8>
    ensures { result ≡ goal_in command (first_value (found_of matches.now)) }
{
    match matches.get_str("goal") {
        Some(value) => match goal_of(command, value) {
            Some(goal) => Ok(Some(goal)),
            None => Err(GOAL),
        },
        None => Ok(usual_goal(command)),
    }
}

fn effort_in(matches: &ArgMatches<'_>, command: Command) -> Result<u16, u8>
    ensures { result ≡ effort_in command (first_value (found_of matches.now)) }
{
    match matches.get_str("effort") {
        Some(value) => number_in(0, MOST_EFFORT, value).ok_or(EFFORT),
        None => Ok(usual_effort(command)),
    }
}

fn blocks_in(matches: &ArgMatches<'_>) -> Result<Blocks, u8>
    ensures { result ≡ blocks_in (first_value (found_of matches.now)) }
{
    match matches.get_str("blocks") {
        Some(value) => blocks_of(value).ok_or(BLOCKS),
        None => Ok(Blocks::Exact),
    }
}

fn picture_in(matches: &ArgMatches<'_>, command: Command) -> Result<PictureForm, u8>
    ensures { result ≡ picture_in command (first_value (found_of matches.now)) }
{
    if let Command::Cost = command {
        return Ok(PictureForm::Text);
    }
    match matches.get_str("as") {
        Some(value) => picture_of(value).ok_or(AS),
        None => Ok(PictureForm::Text),
    }
}

fn report_in(matches: &ArgMatches<'_>, command: Command) -> Result<ReportForm, u8>
    ensures { result ≡ report_in command (first_value (found_of matches.now)) }
{
    let Command::Cost = command else {
        return Ok(ReportForm::Text);
    };
    match matches.get_str("as") {
        Some(value) => report_of(value).ok_or(AS),
        None => Ok(ReportForm::Text),
    }
}

fn gates_in(matches: &ArgMatches<'_>) -> Result<Library, u8>
    ensures { result ≡ gates_in (first_value (found_of matches.now)) }
{
    match matches.get_str("gates") {
        Some(value) => gates_of(value).ok_or(GATES),
        None => Ok(Library::Positive),
    }
}

fn checked_in(matches: &ArgMatches<'_>) -> Result<CheckedBy, u8>
    ensures { result ≡ checked_in (first_value (found_of matches.now)) }
{
    match matches.get_str("by") {
        Some(value) => checked_of(value).ok_or(BY),
        None => Ok(CheckedBy::Words),
    }
}

fn nodes_in(matches: &ArgMatches<'_>) -> Result<u32, u8>
    ensures value { result ≡ nodes_in (first_value (found_of matches.now)) }
    ensures within { IfOk result IsNodeCount }
{
    let most = MOST_NODES as u32;
    match matches.get_str("nodes") {
        Some(value) => count_in(1, most, value).ok_or(NODES),
        None => Ok(most),
    }
}

// All values, or the place of the first that is bad.
#[tactic(auto, unfolding(crate::specs::Values::values_in))]
pub(crate) fn values_in(matches: &ArgMatches<'_>, command: Command) -> Result<Values, u8>
    ensures value { result ≡ values_in command (first_value (found_of matches.now)) }
    ensures lines { IfOk result (λ v. IsLineCount command v.lines) }
    ensures nodes { IfOk result (λ v. IsNodeCount v.nodes) }
{
    Ok(Values {
        method: method_in(matches, command)?,
        to: to_in(matches)?,
        origin: origin_in(matches, command)?,
        aux: aux_in(matches)?,
        lines: lines_in(matches, command)?,
        seed: seed_in(matches, command)?,
        wrap: wrap_in(matches)?,
        goal: goal_in(matches, command)?,
        effort: effort_in(matches, command)?,
        blocks: blocks_in(matches)?,
        picture: picture_in(matches, command)?,
        gates: gates_in(matches)?,
        checked: checked_in(matches)?,
        report: report_in(matches, command)?,
        nodes: nodes_in(matches)?,
    })
}
