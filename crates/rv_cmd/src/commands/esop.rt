ghost use Rattle.std.specs.Prelude.{◌≡◌, [], IfErr, IfOk, length};
ghost use Rattle.rv_cube.specs.ReductionFor.{IsRight, IsSettledFor};
ghost use Rattle.rv_exorlink.specs.Found.{IsFound};
ghost use Rattle.rv_cmd.specs.Commands.Esop.{IsEsopReport, IsFoundCascade, IsFoundList, IsFoundReport, cascade_report};
ghost use Rattle.rv_cmd.specs.Commands.Esop.{esop_goal, esop_report};
ghost use Rattle.rv_cmd.specs.Commands.Esop.{esop_row, found_limits, reduced_list};
ghost use Rattle.rv_cmd.specs.Names.{names_read};
ghost use Rattle.rv_cmd.specs.inside.Making.{Makes};
ghost use Rattle.rv_cmd.specs.inside.Products.{IsProductOf, IsRefusalOf, product_text};
ghost use Rattle.rv_cmd.specs.Limits.{found_within};
ghost use Rattle.rv_cube.specs.Esop.{IsEsop};

use crate::making::{OneInput, OneSearch, found_of_one, of_one};
use crate::product::{Made, Product};
use crate::refusals::too_many_gates;
use rv_cube::CubeList;
use rv_esop::{EsopFault, cascade, is_no_dearer, shared_cascade};
use rv_exorlink::{Goal, found_list};
use rv_faults::{Refusal, Unmade};
use rv_io::Files;
use rv_pla::{Pla, PlaReader};
use rv_words::{Form, Goal as Wish, Settings};
use std::alloc::{AllocError, Global};

/// A cascade that adds the function of a PLA to its outputs, or the list of cubes from which it comes: the reduced
/// list, or with a goal one that a search finds.
pub(crate) fn esop<F: Files>(
    alloc: Global,
    settings: &Settings,
    files: &mut F,
) -> Result<Made, Unmade>
    requires { length (names_read settings.now) ≡ 1 }
    ensures { Makes (esop_row settings.now.to settings.now.goal) (names_read settings.now) (F.view files.old)
        (F.view files.new) result }
{
    let to = settings.to;
    match settings.goal {
        None => of_one(alloc, settings, files, &Reduced { to }),
        Some(wish) => {
            let search = Found {
                to,
                goal: esop_goal(wish),
                effort: settings.effort,
                seed: settings.seed,
            };
            found_of_one(alloc, settings, files, &search)
        }
    }
}

// What is made of the reduced list.
#[derive(Clone, Copy)]
struct Reduced {
    to: Form,
}

impl OneInput for Reduced {
    type Text = PlaReader;

    ghost report = { λ command. esop_report command.to };

    ghost Means = { λ command. IsEsopReport command.to };

    fn make(&self, alloc: Global, pla: &Pla) -> Result<Product, Refusal> {
        let list = match reduced_list(alloc, pla) {
            Ok(list) => list,
            Err(_) => return Err(Refusal::OutOfMemory),
        };
        list.recall_invariant();
        match self.to {
            Form::Pla => Ok(Product::Cubes(list)),
            _ => match cascade(alloc, &list) {
                Ok(circuit) => {
                    circuit.recall_invariant();
                    Ok(Product::Circuit(circuit))
                }
                Err(EsopFault::TooManyGates(count)) => Err(too_many_gates(count)),
                Err(EsopFault::Mem) => Err(Refusal::OutOfMemory),
            },
        }
    }
}

// What is made of a list that a search finds.
#[derive(Clone, Copy)]
struct Found {
    to: Form,
    goal: Goal,
    effort: u16,
    seed: u16,
}

impl OneSearch for Found {
    type Text = PlaReader;

    ghost limits = { λ command. found_limits command.to };

    ghost Means = { λ command. IsFoundReport command.to command.goal };

    fn find(&self, alloc: Global, pla: &Pla) -> Result<Product, Refusal> {
        match self.to {
            Form::Pla => self.cubes(alloc, pla),
            _ => self.circuit(alloc, pla),
        }
    }
}

impl Found {
    // The list of cubes that the search finds, which begins with the reduced one.
    fn list(&self, alloc: Global, pla: &Pla, reduced: &CubeList) -> Result<CubeList, AllocError>
        requires list { reduced.now ≡ reduced_list pla.now }
        requires right { IsRight pla.now reduced.now.cubes }
        ensures found { IfOk result (IsFound self.now.goal pla.now) }
        ensures valid { IfOk result IsEsop }
    {
        let list = found_list(alloc, pla, reduced, self.goal, self.effort, self.seed)?;
        list.recall_invariant();
        Ok(list)
    }

    fn cubes(&self, alloc: Global, pla: &Pla) -> Result<Product, Refusal>
        ensures made { IfOk result
            (λ product.
            IsProductOf (found_within [] (product_text product)) (IsFoundList self.now.goal pla.now) product) }
        ensures unmade { IfErr result (IsRefusalOf 1 []) }
    {
        let reduced = match reduced_list(alloc, pla) {
            Ok(list) => list,
            Err(_) => return Err(Refusal::OutOfMemory),
        };
        match self.list(alloc, pla, &reduced) {
            Ok(list) => Ok(Product::Cubes(list)),
            Err(_) => Err(Refusal::OutOfMemory),
        }
    }

    // The circuit of that list. The cascade of the reduced list has to have few gates enough, and is taken if the other
    // has too many or is dearer.
    fn circuit(&self, alloc: Global, pla: &Pla) -> Result<Product, Refusal>
        ensures made { IfOk result
            (λ product. IsProductOf (found_within (cascade_report (reduced_list pla.now)).limits (product_text product))
            (IsFoundCascade self.now.goal pla.now) product) }
        ensures unmade { IfErr result (IsRefusalOf 1 (cascade_report (reduced_list pla.now)).limits) }
    {
        let reduced = match reduced_list(alloc, pla) {
            Ok(list) => list,
            Err(_) => return Err(Refusal::OutOfMemory),
        };
        reduced.recall_invariant();
        let plain = match cascade(alloc, &reduced) {
            Ok(circuit) => circuit,
            Err(EsopFault::TooManyGates(count)) => return Err(too_many_gates(count)),
            Err(EsopFault::Mem) => return Err(Refusal::OutOfMemory),
        };
        let list = match self.list(alloc, pla, &reduced) {
            Ok(list) => list,
            Err(_) => return Err(Refusal::OutOfMemory),
        };
        match shared_cascade(alloc, &list, self.goal, self.effort, self.seed) {
            Ok(circuit) => {
                if is_no_dearer(&circuit, &reduced, self.goal) {
                    circuit.recall_invariant();
                    Ok(Product::Circuit(circuit))
                } else {
                    plain.recall_invariant();
                    Ok(Product::Circuit(plain))
                }
            }
            Err(EsopFault::TooManyGates(_)) => {
                plain.recall_invariant();
                Ok(Product::Circuit(plain))
            }
            Err(EsopFault::Mem) => Err(Refusal::OutOfMemory),
        }
    }
}

fn esop_goal(wish: Wish) -> Goal
    ensures { result ≡ esop_goal wish }
{
    match wish {
        Wish::Gates => Goal::Gates,
        Wish::Quantum => Goal::Quantum,
        Wish::T => Goal::T,
        _ => Goal::Cubes,
    }
}

// The first list of a PLA, reduced for it.
fn reduced_list(alloc: Global, pla: &Pla) -> Result<CubeList, AllocError>
    ensures list { IfOk result (λ list. list ≡ reduced_list pla.now) }
    ensures value { IfOk result (λ list. IsRight pla.now list.cubes) }
    ensures settled { IfOk result (λ list. IsSettledFor pla.now list.cubes) }
{
    let mut list = CubeList::from_pla(alloc, pla)?;
    list.reduce_for(pla)?;
    Ok(list)
}
