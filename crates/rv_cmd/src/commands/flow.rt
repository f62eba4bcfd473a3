ghost use Rattle.std.specs.Prelude.{◌≡◌, length, IfOk, IfErr};
ghost use Rattle.rv_words.specs.declared.command.Blocks.TheVariants.{Joined};
ghost use Rattle.rv_cmd.specs.Commands.Flow.{IsFlow, IsFunctionFlow, flow_limits, flow_report, flow_row};
ghost use Rattle.rv_cmd.specs.Commands.Flow.{flow_synthesis, function_limits, function_report, joined_row, ruled_row};
ghost use Rattle.rv_cmd.specs.Limits.{found_within};
ghost use Rattle.rv_cmd.specs.Names.{names_read};
ghost use Rattle.rv_cmd.specs.inside.Making.{Makes};
ghost use Rattle.rv_cmd.specs.inside.Products.{IsProductOf, IsRefusalOf, product_text};

use crate::commands::map::{joined_mapping, mapping};
use crate::making::{OneInput, OneSearch, found_of_one, of_one};
use crate::product::{Made, Product};
use crate::steps::embedding;
use rv_faults::{Refusal, Unmade};
use rv_flow::{Synthesis, circuit_for};
use rv_io::Files;
use rv_mct::Aux;
use rv_perm::{PermReader, PermSpec};
use rv_pla::{Pla, PlaReader};
use rv_words::{Blocks, Form, Settings, Synthesis as Wish};
use std::alloc::Global;

/// The network of a permutation, or of the function of a PLA.
pub(crate) fn flow<F: Files>(
    alloc: Global,
    settings: &Settings,
    files: &mut F,
) -> Result<Made, Unmade>
    requires { length (names_read settings.now) ≡ 1 }
    ensures { Makes
        (flow_row settings.now.origin (flow_synthesis settings.now.method) settings.now.simplify settings.now.blocks
        settings.now.aux)
        (names_read settings.now) (F.view files.old) (F.view files.new) result }
{
    let asked = Asked {
        method: flow_synthesis(settings.method),
        simplify: settings.simplify,
        blocks: settings.blocks,
        aux: settings.aux,
    };
    match settings.blocks {
        Blocks::Joined => joined_flow(alloc, settings, files, asked),
        _ => ruled_flow(alloc, settings, files, asked),
    }
}

// In blocks that are made by a rule.
fn ruled_flow<F: Files>(
    alloc: Global,
    settings: &Settings,
    files: &mut F,
    asked: Asked,
) -> Result<Made, Unmade>
    requires { length (names_read settings.now) ≡ 1 }
    ensures { Makes (ruled_row settings.now.origin asked.method asked.simplify asked.blocks asked.aux)
        (names_read settings.now) (F.view files.old) (F.view files.new) result }
{
    match settings.origin {
        Form::Perm => of_one(alloc, settings, files, &PermutationFlow { asked }),
        _ => of_one(alloc, settings, files, &FunctionFlow { asked }),
    }
}

// In joined blocks.
fn joined_flow<F: Files>(
    alloc: Global,
    settings: &Settings,
    files: &mut F,
    asked: Asked,
) -> Result<Made, Unmade>
    requires { length (names_read settings.now) ≡ 1 }
    ensures { Makes (joined_row settings.now.origin asked.method asked.simplify asked.aux)
        (names_read settings.now) (F.view files.old) (F.view files.new) result }
{
    match settings.origin {
        Form::Perm => found_of_one(alloc, settings, files, &PermutationFlow { asked }),
        _ => found_of_one(alloc, settings, files, &FunctionFlow { asked }),
    }
}

// How the arguments ask for the circuit to be made.
fn flow_synthesis(wish: Wish) -> Synthesis
    ensures { result ≡ flow_synthesis wish }
{
    match wish {
        Wish::Rows(method) => Synthesis::Rows(method),
        Wish::SingleTargets => Synthesis::SingleTargets,
    }
}

// How the circuit of a permutation is made, and its network.
#[derive(Clone, Copy)]
struct Asked {
    method: Synthesis,
    simplify: bool,
    blocks: Blocks,
    aux: Aux,
}

// The network of a permutation.
#[derive(Clone, Copy)]
struct PermutationFlow {
    asked: Asked,
}

impl OneInput for PermutationFlow {
    type Text = PermReader;

    ghost report = { λ command.
        flow_report command.asked.method command.asked.simplify command.asked.blocks command.asked.aux };

    ghost Means = { λ command.
        IsFlow command.asked.method command.asked.simplify command.asked.blocks command.asked.aux };

    fn make(&self, alloc: Global, spec: &PermSpec) -> Result<Product, Refusal> {
        network(alloc, self.asked, spec)
    }
}

impl OneSearch for PermutationFlow {
    type Text = PermReader;

    ghost limits = { λ command. flow_limits command.asked.method command.asked.simplify Joined command.asked.aux };

    ghost Means = { λ command. IsFlow command.asked.method command.asked.simplify Joined command.asked.aux };

    fn find(&self, alloc: Global, spec: &PermSpec) -> Result<Product, Refusal> {
        joined_network(alloc, self.asked, spec)
    }
}

// The network of the embedding of a PLA's function.
#[derive(Clone, Copy)]
struct FunctionFlow {
    asked: Asked,
}

impl OneInput for FunctionFlow {
    type Text = PlaReader;

    ghost report = { λ command.
        function_report command.asked.method command.asked.simplify command.asked.blocks command.asked.aux };

    ghost Means = { λ command.
        IsFunctionFlow command.asked.method command.asked.simplify command.asked.blocks command.asked.aux };

    fn make(&self, alloc: Global, pla: &Pla) -> Result<Product, Refusal> {
        match embedding(alloc, pla) {
            Ok(spec) => network(alloc, self.asked, &spec),
            Err(refusal) => Err(refusal),
        }
    }
}

impl OneSearch for FunctionFlow {
    type Text = PlaReader;

    ghost limits = { λ command. function_limits command.asked.method command.asked.simplify Joined command.asked.aux };

    ghost Means = { λ command. IsFunctionFlow command.asked.method command.asked.simplify Joined command.asked.aux };

    fn find(&self, alloc: Global, pla: &Pla) -> Result<Product, Refusal> {
        match embedding(alloc, pla) {
            Ok(spec) => joined_network(alloc, self.asked, &spec),
            Err(refusal) => Err(refusal),
        }
    }
}

fn network(alloc: Global, asked: Asked, spec: &PermSpec) -> Result<Product, Refusal>
    ensures made { IfOk result
        (IsProductOf (flow_report asked.method asked.simplify asked.blocks asked.aux spec.now)
        (IsFlow asked.method asked.simplify asked.blocks asked.aux spec.now)) }
    ensures unmade { IfErr result
        (IsRefusalOf 1 (flow_limits asked.method asked.simplify asked.blocks asked.aux spec.now)) }
{
    spec.recall_invariant();
    match circuit_for(alloc, spec, asked.method, asked.simplify) {
        Ok(circuit) => mapping(alloc, asked.blocks, asked.aux, &circuit),
        Err(_) => Err(Refusal::OutOfMemory),
    }
}

fn joined_network(alloc: Global, asked: Asked, spec: &PermSpec) -> Result<Product, Refusal>
    ensures made { IfOk result (λ product. IsProductOf
        (found_within (flow_limits asked.method asked.simplify Joined asked.aux spec.now) (product_text product))
        (IsFlow asked.method asked.simplify Joined asked.aux spec.now) product) }
    ensures unmade { IfErr result
        (IsRefusalOf 1 (flow_limits asked.method asked.simplify Joined asked.aux spec.now)) }
{
    spec.recall_invariant();
    match circuit_for(alloc, spec, asked.method, asked.simplify) {
        Ok(circuit) => joined_mapping(alloc, asked.aux, &circuit),
        Err(_) => Err(Refusal::OutOfMemory),
    }
}
