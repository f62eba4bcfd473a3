ghost use Rattle.std.specs.Prelude.{◌≡◌, ◌<◌, ◌^◌, length, slice_get, IfOk, IfSome};
ghost use Rattle.rv_reader.specs.Feeding.{Answers};
ghost use Rattle.rv_gate.specs.Word.{word_of};
ghost use Rattle.rv_pla.specs.Cube.{IsCube};
ghost use Rattle.rv_pla.specs.declared.fault.PlaFault.TheVariants.{Mem as OutOfMemory};
ghost use Rattle.rv_pla.specs.Pla.{entry, IsTwoLevel};
ghost use Rattle.rv_pla.specs.Reading.{checked_pla};

mod conflict;

use crate::cube::Cube;
use crate::entry::Entry;
use crate::fault::PlaFault;
use crate::kind::{Kind, told};
use crate::sets::has;
use crate::table::gathered;
use crate::term::Term;
use std::alloc::{AllocError, Global};
use std::marker::Model;

/// The most terms that a PLA has.
pub const MOST_TERMS: u32 = 1 << 20;

/// A PLA: its sizes, its type, its terms in order, and for each word and output its entry.
///
/// Contracts see it as a `TwoLevel`, of which `entry` tells the entries.
#[derive(Drop)]
pub struct Pla {
    inputs: u8,
    outputs: u8,
    kind: Kind,
    terms: Vec<Term>,
    ones: Vec<u16>,
    others: Vec<u16>,
}

impl Model for Pla {
    ghost use Rattle.rv_pla.specs.Pla.{TwoLevel, IsTwoLevel};
    ghost use Rattle.rv_pla.specs.inside.Table.{IsTabled};

    ghost Value = { TwoLevel };

    ghost view = { λ p. record { inputs = p.inputs; outputs = p.outputs; kind = p.kind; terms = p.terms.items } };

    ghost invariant = { λ p.
        IsTwoLevel (record { inputs = p.inputs; outputs = p.outputs; kind = p.kind; terms = p.terms.items })
        × IsTabled (record { inputs = p.inputs; outputs = p.outputs; kind = p.kind; terms = p.terms.items })
        p.ones.items p.others.items };
}

impl Pla {
    // The PLA of the terms, or the first conflict.
    pub(crate) fn checked(
        alloc: Global,
        inputs: u8,
        outputs: u8,
        kind: Kind,
        terms: Vec<Term>,
    ) -> Result<Pla, PlaFault>
        requires { IsTwoLevel (record { inputs = inputs; outputs = outputs; kind = kind; terms = terms.items }) }
        ensures { Answers OutOfMemory result
            (checked_pla (record { inputs = inputs; outputs = outputs; kind = kind; terms = terms.items })) }
    {
        let pla = match Pla::tabled(alloc, inputs, outputs, kind, terms) {
            Ok(pla) => pla,
            Err(AllocError) => return Err(PlaFault::Mem),
        };
        match pla.conflict() {
            Some(fault) => Err(fault),
            None => Ok(pla),
        }
    }

    fn tabled(
        alloc: Global,
        inputs: u8,
        outputs: u8,
        kind: Kind,
        terms: Vec<Term>,
    ) -> Result<Pla, AllocError>
        requires { IsTwoLevel (record { inputs = inputs; outputs = outputs; kind = kind; terms = terms.items }) }
        ensures { IfOk result (λ pla.
            pla ≡ record { inputs = inputs; outputs = outputs; kind = kind; terms = terms.items }) }
    {
        let ones = gathered(alloc, inputs, kind, false, &terms)?;
        let others = gathered(alloc, inputs, kind, true, &terms)?;
        Ok(Pla {
            inputs,
            outputs,
            kind,
            terms,
            ones,
            others,
        })
    }

    /// The number of inputs.
    pub fn inputs(&self) -> u8
        ensures value { result ≡ self.now.inputs }
        ensures valid { IsTwoLevel self.now }
    {
        self.inputs
    }

    /// The number of outputs.
    pub fn outputs(&self) -> u8
        ensures value { result ≡ self.now.outputs }
        ensures valid { IsTwoLevel self.now }
    {
        self.outputs
    }

    /// The type: fd, where the text gave none.
    pub fn kind(&self) -> Kind
        ensures { result ≡ self.now.kind }
    {
        self.kind
    }

    /// The number of terms.
    pub fn term_count(&self) -> u32
        ensures { result ≡ length self.now.terms }
    {
        self.terms.len() as u32
    }

    /// The input part of a term, with the outputs that carry a 1.
    pub fn ones(&self, term: u32) -> Cube
        requires { term < length self.now.terms }
        ensures value { IfSome (slice_get self.now.terms term) (λ t. result ≡ t.cube) }
        ensures valid { IsCube self.now.inputs self.now.outputs result }
    {
        self.terms[term as usize].cube
    }

    /// The entry of an output at the word with a number. Input 0 is the number's most significant bit.
    pub fn value(&self, input: u32, output: u8) -> Entry
        requires input_in { input < 2 ^ self.now.inputs }
        requires output_in { output < self.now.outputs }
        ensures { result ≡ entry self.now (word_of self.now.inputs input) output }
    {
        let first = has(self.ones[input as usize], output);
        let second = has(self.others[input as usize], output);
        told(self.kind, first, second)
    }
}
