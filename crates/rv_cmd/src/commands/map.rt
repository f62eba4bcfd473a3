ghost use Rattle.std.specs.Prelude.{◌≡◌, ◌≤◌, ◌∷◌, [], All, IfOk, IfErr, length};
ghost use Rattle.rv_expand.specs.Toffoli.{toffoli_net, toffoli_ops};
ghost use Rattle.rv_mct.specs.Extends.{IsPlain};
ghost use Rattle.rv_near.specs.Near.{near_net, near_ops};
ghost use Rattle.rv_net.specs.Network.{expanded, operation_count};
ghost use Rattle.rv_net.specs.declared.net.TheConstants.{MOST_OPS};
ghost use Rattle.rv_words.specs.declared.command.Blocks.TheVariants.{Exact, Joined, Near, Relative, Toffoli};
ghost use Rattle.rv_cmd.specs.declared.product.Product.TheVariants as products;
ghost use Rattle.rv_cmd.specs.Commands.Map.{IsMapping, map_limits, map_report, map_row};
ghost use Rattle.rv_cmd.specs.Limits.{found_within, of_ops};
ghost use Rattle.rv_cmd.specs.Names.{names_read};
ghost use Rattle.rv_cmd.specs.inside.Making.{Makes};
ghost use Rattle.rv_cmd.specs.inside.Products.{IsProductOf, IsRefusalOf, product_text};

use crate::making::{OneInput, OneSearch, found_of_one, of_one};
use crate::product::{Made, Product};
use crate::refusals::{too_many_lines, too_many_ops};
use crate::steps::decomposition;
use rv_expand::{Expansion, Toffolis};
use rv_faults::{Refusal, Unmade};
use rv_gate::{Circuit, MOST_LINES};
use rv_io::Files;
use rv_joined::joined;
use rv_ladder::{RelativeFault, relative};
use rv_mct::Aux;
use rv_near::near;
use rv_net::ExpandFault;
use rv_real::RealReader;
use rv_words::{Blocks, Settings};
use std::alloc::Global;

/// The network of a circuit.
pub(crate) fn map<F: Files>(
    alloc: Global,
    settings: &Settings,
    files: &mut F,
) -> Result<Made, Unmade>
    requires { length (names_read settings.now) ≡ 1 }
    ensures { Makes (map_row settings.now.blocks settings.now.aux) (names_read settings.now) (F.view files.old)
        (F.view files.new) result }
{
    let (blocks, aux) = (settings.blocks, settings.aux);
    match blocks {
        Blocks::Joined => found_of_one(alloc, settings, files, &MapJoined { aux }),
        _ => of_one(alloc, settings, files, &MapByRule { blocks, aux }),
    }
}

// In blocks whose phases are joined over the whole circuit.
#[derive(Clone, Copy)]
struct MapJoined {
    aux: Aux,
}

impl OneSearch for MapJoined {
    type Text = RealReader;

    ghost limits = { λ command. map_limits Joined command.aux };

    ghost Means = { λ command. IsMapping Joined command.aux };

    fn find(&self, alloc: Global, circuit: &Circuit) -> Result<Product, Refusal> {
        joined_mapping(alloc, self.aux, circuit)
    }
}

/// A network of the circuit in blocks whose phases are joined.
pub(crate) fn joined_mapping(alloc: Global, aux: Aux, circuit: &Circuit) -> Result<Product, Refusal>
    ensures made { IfOk result
        (λ product. IsProductOf (found_within (map_limits Joined aux circuit.now) (product_text product))
        (IsMapping Joined aux circuit.now) product) }
    ensures unmade { IfErr result (IsRefusalOf 1 (map_limits Joined aux circuit.now)) }
{
    match joined(alloc, circuit, aux) {
        Ok(net) => Ok(Product::Network(net)),
        Err(RelativeFault::TooManyLines(count)) => Err(too_many_lines(count, MOST_LINES)),
        Err(RelativeFault::TooManyOps(count)) => Err(too_many_ops(count)),
        Err(RelativeFault::Mem) => Err(Refusal::OutOfMemory),
    }
}

// In blocks that are made by a rule.
#[derive(Clone, Copy)]
struct MapByRule {
    blocks: Blocks,
    aux: Aux,
}

impl OneInput for MapByRule {
    type Text = RealReader;

    ghost report = { λ command. map_report command.blocks command.aux };

    ghost Means = { λ command. IsMapping command.blocks command.aux };

    fn make(&self, alloc: Global, circuit: &Circuit) -> Result<Product, Refusal> {
        mapping(alloc, self.blocks, self.aux, circuit)
    }
}

/// The network of a circuit, in blocks of this kind.
pub(crate) fn mapping(
    alloc: Global,
    blocks: Blocks,
    aux: Aux,
    circuit: &Circuit,
) -> Result<Product, Refusal>
    ensures made { IfOk result (IsProductOf (map_report blocks aux circuit.now) (IsMapping blocks aux circuit.now)) }
    ensures unmade { IfErr result (IsRefusalOf 1 (map_limits blocks aux circuit.now)) }
{
    match blocks {
        Blocks::Exact => exact(alloc, aux, circuit),
        Blocks::Relative | Blocks::Joined => of_ladders(alloc, aux, circuit),
        Blocks::Toffoli => of_toffolis(alloc, aux, circuit),
        Blocks::Near => on_neighbours(alloc, aux, circuit),
    }
}

// Of the decomposed circuit, with the operations of its gates.
fn exact(alloc: Global, aux: Aux, circuit: &Circuit) -> Result<Product, Refusal>
    ensures made { IfOk result (IsProductOf (map_report Exact aux circuit.now) (IsMapping Exact aux circuit.now)) }
    ensures unmade { IfErr result (IsRefusalOf 1 (map_limits Exact aux circuit.now)) }
{
    circuit.recall_invariant();
    match decomposition(alloc, aux, circuit) {
        Ok(decomposed) => {
            decomposed.recall_invariant();
            network(decomposed)
        }
        Err(refusal) => Err(refusal),
    }
}

// The network of a circuit of NOT, CNOT and Toffoli gates.
fn network(circuit: Circuit) -> Result<Product, Refusal>
    requires { All IsPlain circuit.gates }
    ensures few { IfOk result (λ product. operation_count circuit.gates ≤ MOST_OPS) }
    ensures made { IfOk result (λ product. product ≡ products.Expansion (expanded circuit)) }
    ensures unmade { IfErr result (IsRefusalOf 1 (of_ops (operation_count circuit.gates) ∷ [])) }
{
    match Expansion::of_circuit(circuit) {
        Ok(expansion) => Ok(Product::Expansion(expansion)),
        Err(count) => Err(too_many_ops(count)),
    }
}

// Of the circuit itself, with a ladder for each large gate.
fn of_ladders(alloc: Global, aux: Aux, circuit: &Circuit) -> Result<Product, Refusal>
    ensures made { IfOk result
        (IsProductOf (map_report Relative aux circuit.now) (IsMapping Relative aux circuit.now)) }
    ensures unmade { IfErr result (IsRefusalOf 1 (map_limits Relative aux circuit.now)) }
{
    match relative(alloc, circuit, aux) {
        Ok(net) => Ok(Product::Network(net)),
        Err(RelativeFault::TooManyLines(count)) => Err(too_many_lines(count, MOST_LINES)),
        Err(RelativeFault::TooManyOps(count)) => Err(too_many_ops(count)),
        Err(RelativeFault::Mem) => Err(Refusal::OutOfMemory),
    }
}

// Of the decomposed circuit, with one operation for each gate.
fn of_toffolis(alloc: Global, aux: Aux, circuit: &Circuit) -> Result<Product, Refusal>
    ensures made { IfOk result (IsProductOf (map_report Toffoli aux circuit.now) (IsMapping Toffoli aux circuit.now)) }
    ensures unmade { IfErr result (IsRefusalOf 1 (map_limits Toffoli aux circuit.now)) }
{
    circuit.recall_invariant();
    match decomposition(alloc, aux, circuit) {
        Ok(decomposed) => {
            decomposed.recall_invariant();
            toffolis(decomposed)
        }
        Err(refusal) => Err(refusal),
    }
}

fn toffolis(circuit: Circuit) -> Result<Product, Refusal>
    requires { All IsPlain circuit.gates }
    ensures few { IfOk result (λ product. length (toffoli_ops circuit.gates) ≤ MOST_OPS) }
    ensures made { IfOk result (λ product. product ≡ products.Toffolis (toffoli_net circuit)) }
    ensures unmade { IfErr result (IsRefusalOf 1 (of_ops (length (toffoli_ops circuit.gates)) ∷ [])) }
{
    match Toffolis::of_circuit(circuit) {
        Ok(toffolis) => Ok(Product::Toffolis(toffolis)),
        Err(count) => Err(too_many_ops(count)),
    }
}

// Of the decomposed circuit, with blocks on neighbours for gates whose lines are a row.
fn on_neighbours(alloc: Global, aux: Aux, circuit: &Circuit) -> Result<Product, Refusal>
    ensures made { IfOk result (IsProductOf (map_report Near aux circuit.now) (IsMapping Near aux circuit.now)) }
    ensures unmade { IfErr result (IsRefusalOf 1 (map_limits Near aux circuit.now)) }
{
    circuit.recall_invariant();
    match decomposition(alloc, aux, circuit) {
        Ok(decomposed) => {
            decomposed.recall_invariant();
            near_network(alloc, decomposed)
        }
        Err(refusal) => Err(refusal),
    }
}

fn near_network(alloc: Global, circuit: Circuit) -> Result<Product, Refusal>
    requires { All IsPlain circuit.gates }
    ensures few { IfOk result (λ product. length (near_ops circuit.gates) ≤ MOST_OPS) }
    ensures made { IfOk result (λ product. product ≡ products.Network (near_net circuit)) }
    ensures unmade { IfErr result (IsRefusalOf 1 (of_ops (length (near_ops circuit.gates)) ∷ [])) }
{
    match near(alloc, &circuit) {
        Ok(net) => Ok(Product::Network(net)),
        Err(ExpandFault::TooManyOps(count)) => Err(too_many_ops(count)),
        Err(ExpandFault::Mem) => Err(Refusal::OutOfMemory),
    }
}
