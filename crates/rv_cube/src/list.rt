ghost use Rattle.std.specs.Prelude.{◌≡◌, ◌^◌, ◌<◌, ◌≤◌, ℕ, Bool, List, length, OnOk, OnErr, IfOk, All, slice_index};
ghost use Rattle.rv_gate.specs.Word.{has, number_of, word_of};
ghost use Rattle.rv_pla.specs.Cube.{IsCube};
ghost use Rattle.rv_pla.specs.declared.cube.TheConstants.{MOST_INPUTS, MOST_OUTPUTS};
ghost use Rattle.rv_pla.specs.Pla.{entry};
ghost use Rattle.rv_pla.specs.Zeros.{bit_for};
ghost use Rattle.rv_cube.specs.Dashes.{IsDashed};
ghost use Rattle.rv_cube.specs.Esop.{esop_value, terms_of, IsEsop, IsTerm};
ghost use Rattle.rv_cube.specs.First.{first_of};
ghost use Rattle.rv_cube.specs.ReedMuller.{reed_muller};
ghost use Rattle.rv_cube.specs.Reduction.{reduced, IsSettled};
ghost use Rattle.rv_cube.specs.ReductionFor.{reduced_for, IsRight, IsSettledFor};
ghost use Rattle.rv_cube.specs.Settled.{IsIrreducible, IsIrreducibleFor};

use crate::carried::terms_of;
use crate::first::{term_cubes, values_of};
use crate::reduce::reduce;
use crate::reduce_for::reduce_for;
use crate::reed_muller::{cubes_of, transform};
use crate::value::esop_value;
use rv_pla::{Cube, Kind, MOST_INPUTS, MOST_OUTPUTS, MOST_TERMS, Pla};
use std::alloc::{AllocError, Global};
use std::marker::Model;

/// The most cubes that a list has: as many as a PLA has terms.
pub const MOST_CUBES: usize = MOST_TERMS as usize;

/// A list of cubes of as many inputs and outputs, read as an exclusive sum of products.
///
/// There are 1 to [`MOST_INPUTS`] inputs, 1 to [`MOST_OUTPUTS`] outputs and at most [`MOST_CUBES`] cubes,
/// and each cube carries an output.
#[derive(Drop)]
pub struct CubeList {
    inputs: u8,
    outputs: u8,
    cubes: Vec<Cube>,
}

impl Model for CubeList {
    ghost use Rattle.rv_cube.specs.Esop.{Esop, IsEsop};

    ghost Value = { Esop };

    ghost view = { λ c. record { inputs = c.inputs; outputs = c.outputs; cubes = c.cubes.items } };

    ghost invariant = { λ c. IsEsop (record { inputs = c.inputs; outputs = c.outputs; cubes = c.cubes.items }) };
}

impl CubeList {
    /// The first list of a PLA: its value has an output exactly where the entry is 1.
    ///
    /// These are the terms of a PLA of type esop, in their order, but for those that carry no 1. For the
    /// other types it is the positive-polarity Reed-Muller form, a cube for each set of inputs that some
    /// output needs, in ascending order of the set read as a word. Fails only for want of memory.
    #[tactic(auto, using(rv_pla::proofs::FreeEntries::allows_own, crate::proofs::inside::Entries::first_list))]
    pub fn from_pla(alloc: Global, pla: &Pla) -> Result<CubeList, AllocError>
        ensures list { IfOk result (λ c. c ≡ first_of pla.now) }
        ensures value { IfOk result (λ c. (word : List Bool) (output : ℕ) → length word ≡ pla.now.inputs
            → output < pla.now.outputs
            → has (esop_value c.cubes word) output ≡ bit_for (entry pla.now word output)) }
        ensures right { IfOk result (λ c. IsRight pla.now c.cubes) }
    {
        let (inputs, outputs) = (pla.inputs(), pla.outputs());
        if pla.kind() == Kind::Esop {
            let terms = term_cubes(alloc, pla)?;
            return Ok(CubeList::from_terms(inputs, outputs, terms));
        }
        let values = values_of(alloc, pla)?;
        CubeList::from_values(alloc, inputs, outputs, &values)
    }

    /// How many inputs a cube has.
    pub fn inputs(&self) -> u8
        ensures value { result ≡ self.now.inputs }
        ensures some { 1 ≤ result }
        ensures few { result ≤ MOST_INPUTS }
    {
        self.inputs
    }

    /// How many outputs a cube has.
    pub fn outputs(&self) -> u8
        ensures value { result ≡ self.now.outputs }
        ensures some { 1 ≤ result }
        ensures few { result ≤ MOST_OUTPUTS }
    {
        self.outputs
    }

    /// For proofs: recalls what every list keeps. Does nothing when it runs.
    pub fn recall_invariant(&self)
        ensures { IsEsop self.now }
    {
        let _ = &self.inputs;
    }

    /// How many cubes there are.
    pub fn len(&self) -> u32
        ensures { result ≡ length self.now.cubes }
    {
        self.cubes.len() as u32
    }

    /// The cubes, in their order.
    pub fn cubes(&self) -> &[Cube]
        ensures value { result.now ≡ self.now.cubes }
        ensures valid { All (IsTerm self.now.inputs self.now.outputs) self.now.cubes }
        ensures few { length self.now.cubes ≤ MOST_CUBES }
    {
        &self.cubes
    }

    /// The positive-polarity Reed-Muller form of a table with the outputs of each input word: a cube for each set
    /// of inputs that some output needs, in ascending order of the set read as a word. Its value at each word is
    /// that of the table. Fails only for want of memory.
    #[tactic(auto, using(std::proofs::lemmas::List::take_at, crate::proofs::inside::ReedMuller::listed))]
    pub fn from_values(
        alloc: Global,
        inputs: u8,
        outputs: u8,
        values: &[u16],
    ) -> Result<CubeList, AllocError>
        requires some_inputs { 1 ≤ inputs }
        requires few_inputs { inputs ≤ MOST_INPUTS }
        requires some_outputs { 1 ≤ outputs }
        requires few_outputs { outputs ≤ MOST_OUTPUTS }
        requires full { length values.now ≡ 2 ^ inputs }
        requires small { All (λ value. value < 2 ^ outputs) values.now }
        ensures list { IfOk result (λ c. c
            ≡ record { inputs = inputs; outputs = outputs; cubes = reed_muller inputs values.now }) }
        ensures value { IfOk result (λ c. (word : List Bool) → length word ≡ inputs
            → esop_value c.cubes word ≡ slice_index values.now (number_of word)) }
    {
        let mut needed = Vec::from_slice(alloc, values)?;
        transform(&mut needed, inputs);
        let cubes = cubes_of(alloc, &needed, inputs, outputs)?;
        Ok(CubeList {
            inputs,
            outputs,
            cubes,
        })
    }

    /// The terms that carry an output, in their order. Takes no memory.
    pub fn from_terms(inputs: u8, outputs: u8, terms: Vec<Cube>) -> CubeList
        requires some_inputs { 1 ≤ inputs }
        requires few_inputs { inputs ≤ MOST_INPUTS }
        requires some_outputs { 1 ≤ outputs }
        requires few_outputs { outputs ≤ MOST_OUTPUTS }
        requires few { length terms.items ≤ MOST_CUBES }
        requires valid { All (IsCube inputs outputs) terms.items }
        ensures { result ≡ record { inputs = inputs; outputs = outputs; cubes = terms_of terms.items } }
    {
        CubeList {
            inputs,
            outputs,
            cubes: terms_of(terms),
        }
    }

    /// The outputs that an odd number of cubes carry that match the input word with this number. Takes no
    /// memory.
    pub fn value(&self, input: u32) -> u16
        requires { input < 2 ^ self.now.inputs }
        ensures { result ≡ esop_value self.now.cubes (word_of self.now.inputs input) }
    {
        esop_value(&self.cubes, self.inputs, input)
    }

    /// Makes the list shorter, until no step applies any more.
    ///
    /// A step merges two cubes with the same inputs, or two with the same outputs that differ in one input;
    /// or it is an exorlink: two with the same outputs that differ in two inputs are exchanged for two others
    /// with the same value, one of which merges at once with a third cube. The value stays at every input word, and
    /// an input that is `-` in every cube stays so. The result is settled, and need not be the shortest. Fails only
    /// for want of memory.
    pub fn reduce(&mut self) -> Result<(), AllocError>
        ensures ok { OnOk result (self.new ≡ record self.old { cubes = reduced self.old.inputs self.old.cubes }) }
        ensures err { OnErr result (self.new ≡ self.old) }
        ensures kept { (word : List Bool) → length word ≡ self.old.inputs
            → esop_value self.new.cubes word ≡ esop_value self.old.cubes word }
        ensures dashes { (input : ℕ) → IsDashed input self.old.cubes → IsDashed input self.new.cubes }
        ensures no_more { length self.new.cubes ≤ length self.old.cubes }
        ensures settled { OnOk result (IsSettled self.new.inputs self.new.cubes) }
        ensures irreducible { OnOk result (IsIrreducible self.new.inputs self.new.cubes) }
    {
        let alloc = *self.cubes.allocator();
        self.cubes = reduce(alloc, &self.cubes, self.inputs)?;
        Ok(())
    }

    /// Makes the list shorter for a PLA, whose free entries may take any value, until no step applies any more.
    ///
    /// The steps of [`CubeList::reduce`] come first. Where none of them applies, the first cube that can loses
    /// an output: the least one whose entry is free at each input word that the cube matches. A cube without
    /// outputs goes. The value stays right for the PLA. Fails only for want of memory.
    pub fn reduce_for(&mut self, pla: &Pla) -> Result<(), AllocError>
        requires inputs { self.old.inputs ≡ pla.now.inputs }
        requires outputs { self.old.outputs ≡ pla.now.outputs }
        requires right { IsRight pla.now self.old.cubes }
        ensures ok { OnOk result (self.new ≡ record self.old { cubes = reduced_for pla.now self.old.cubes }) }
        ensures err { OnErr result (self.new ≡ self.old) }
        ensures right { IsRight pla.now self.new.cubes }
        ensures no_more { length self.new.cubes ≤ length self.old.cubes }
        ensures settled { OnOk result (IsSettledFor pla.now self.new.cubes) }
        ensures irreducible { OnOk result (IsIrreducibleFor pla.now self.new.cubes) }
    {
        let alloc = *self.cubes.allocator();
        self.cubes = reduce_for(alloc, &self.cubes, pla)?;
        Ok(())
    }
}
