ghost use Rattle.std.specs.Prelude.{◌≡◌, ◌≢◌, [], Err, IfOk, true};
ghost use Rattle.clap.specs.Words.{first_value, found_of, takes};
ghost use Rattle.rv_words.specs.Line.{value_of, line, refusal, whole};
ghost use Rattle.rv_words.specs.Given.{names_for, library_name};
ghost use Rattle.rv_words.specs.Values.{IsLineCount, IsNodeCount};
ghost use Rattle.rv_words.specs.Settings.{IsAnswer, IsAsked, fault_of_error, read, read_by, read_inputs, settings_of};
ghost use Rattle.rv_words.specs.Settings.{standard_libraries, texts};
ghost use Rattle.rv_words.specs.declared.fault.ArgumentFault.TheVariants.{NotUnderstood};

use crate::choice::{Values, values_in};
use crate::command::{command_of, usage_of};
use crate::given::{command_text, first_not_used, input_count, is_flag_given, name_or_standard};
use crate::line::{line, whole};
use crate::name::is_standard;
use crate::{ArgumentFault, Command, Inputs, Name, Settings};
use clap::error::ErrorKind;
use clap::{ArgMatches, Error};
use std::alloc::{AllocError, Global};

/// Reads the arguments of the command line, which do not hold the program's name.
pub fn settings(alloc: Global, arguments: &[String]) -> Result<Settings, ArgumentFault>
    // What the arguments ask for, or the first fault. Want of memory may come before any answer.
    ensures answer { IsAnswer (settings_of (texts arguments.now)) result }

    // Only arguments that are refused are not understood.
    ensures refused { result ≡ Err NotUnderstood → refusal (texts arguments.now) ≢ [] }

    // Given that are taken are read.
    ensures taken { takes line (whole (texts arguments.now)) ≡ true
        → IsAnswer (read (value_of (texts arguments.now))) result }

    ensures asked { IfOk result IsAsked }
{
    let line = line(alloc)?;
    let arguments = whole(alloc, arguments)?;
    match line.try_get_matches_from(arguments.as_slice()) {
        Ok(matches) => read(alloc, &matches),
        Err(error) => Err(fault_by(&error)),
    }
}

fn fault_by(error: &Error) -> ArgumentFault
    ensures { result ≡ fault_of_error error.now }
{
    if error.kind() == ErrorKind::OutOfMemory {
        ArgumentFault::Mem
    } else {
        ArgumentFault::NotUnderstood
    }
}

// Reads the matches.
#[tactic(auto, unfolding(crate::specs::Settings::read))]
fn read(alloc: Global, matches: &ArgMatches<'_>) -> Result<Settings, ArgumentFault>
    ensures answer { IsAnswer (read (first_value (found_of matches.now))) result }
    ensures asked { IfOk result IsAsked }
{
    let name = command_text(matches);
    match command_of(name) {
        Some(command) => read_by(alloc, matches, command),
        None => Err(ArgumentFault::UnknownCommand(Name::new(alloc, name)?)),
    }
}

#[tactic(auto, unfolding(crate::specs::Settings::read_by))]
fn read_by(
    alloc: Global,
    matches: &ArgMatches<'_>,
    command: Command,
) -> Result<Settings, ArgumentFault>
    ensures answer { IsAnswer (read_by command (first_value (found_of matches.now))) result }
    ensures asked { IfOk result IsAsked }
{
    if let Some(place) = first_not_used(matches, command) {
        return Err(ArgumentFault::NotUsed(command, place));
    }
    match values_in(matches, command) {
        Ok(values) => read_inputs(alloc, matches, command, values),
        Err(place) => Err(ArgumentFault::BadValue(place)),
    }
}

fn read_inputs(
    alloc: Global,
    matches: &ArgMatches<'_>,
    command: Command,
    values: Values,
) -> Result<Settings, ArgumentFault>
    requires lines { IsLineCount command values.lines }
    requires nodes { IsNodeCount values.nodes }
    ensures answer { IsAnswer (read_inputs command (first_value (found_of matches.now)) values) result }
    ensures asked { IfOk result IsAsked }
{
    let usage = usage_of(command);
    let count = input_count(matches);
    if count < usage.least || usage.most < count {
        return Err(ArgumentFault::InputCount(command));
    }
    let inputs = inputs_for(alloc, usage.most, matches)?;
    let library = library(alloc, matches)?;
    if 1 < inputs.standard_count() + standard_libraries(&library) {
        return Err(ArgumentFault::TwiceStandard);
    }
    Ok(Settings {
        command,
        inputs,
        method: values.method,
        to: values.to,
        origin: values.origin,
        library,
        aux: values.aux,
        lines: values.lines,
        seed: values.seed,
        all: is_flag_given(matches, "all"),
        simplify: is_flag_given(matches, "simplify"),
        wrap: values.wrap,
        goal: values.goal,
        effort: values.effort,
        marks: is_flag_given(matches, "marks"),
        blocks: values.blocks,
        picture: values.picture,
        gates: values.gates,
        checked: values.checked,
        report: values.report,
        nodes: values.nodes,
        curve: is_flag_given(matches, "curve"),
        constants: is_flag_given(matches, "constants"),
    })
}

// The names of the inputs, where a missing one is `-`.
fn inputs_for(alloc: Global, most: u8, matches: &ArgMatches<'_>) -> Result<Inputs, AllocError>
    ensures { IfOk result (λ inputs. inputs ≡ names_for most (first_value (found_of matches.now))) }
{
    let mut names = Vec::new(alloc);
    if most == 0 {
        return Ok(Inputs::new(names));
    }
    names.push(Name::new(alloc, name_or_standard(matches, "first"))?)?;
    if most == 1 {
        return Ok(Inputs::new(names));
    }
    names.push(Name::new(alloc, name_or_standard(matches, "second"))?)?;
    Ok(Inputs::new(names))
}

fn library(alloc: Global, matches: &ArgMatches<'_>) -> Result<Option<Name>, AllocError>
    ensures { IfOk result (λ library. library ≡ library_name (first_value (found_of matches.now))) }
{
    match matches.get_str("library") {
        Some(name) => Ok(Some(Name::new(alloc, name)?)),
        None => Ok(None),
    }
}

// How many libraries are standard input.
fn standard_libraries(library: &Option<Name>) -> usize
    ensures { result ≡ standard_libraries library.now }
{
    match library {
        Some(name) if is_standard(name.text()) => 1,
        _ => 0,
    }
}
