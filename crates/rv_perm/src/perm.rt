// Permutations as tables.
ghost use Rattle.std.specs.Prelude.{◌≡◌, ◌≢◌, ℕ, ◌^◌, ◌<◌, ◌≤◌, ◌⊎◌, length, map, slice_index, IfOk, IfErr, Err};
ghost use Rattle.std.specs.Prelude.{IsErrOf};
ghost use Rattle.rv_text.specs.declared.fault.TextFault.{TextFault};
ghost use Rattle.rv_text.specs.declared.lines.TheConstants.{MOST_BYTES};
ghost use Rattle.rv_gate.specs.Gate.{act_on_number, FitsIn, IsFlip};
ghost use Rattle.rv_perm.specs.Perm.{IsPerm, images_checked, table_of, preimage_of, reindexed};
ghost use Rattle.rv_perm.specs.declared.fault.PermFault.TheVariants.{Mem};

use super::fault::PermFault;
use super::places::{lines_of, places_of};
use super::walk::exchange;
use rv_gate::Gate;
use std::alloc::{AllocError, Global};
use std::marker::Model;

/// The most lines of a permutation, whose table then has [`MOST_NUMBERS`] entries.
pub const MOST_PERM_LINES: u8 = 16;

/// The most numbers of a permutation.
pub const MOST_NUMBERS: u32 = 1 << MOST_PERM_LINES;

/// The most lines of a permutation that is generated from a seed.
pub const MOST_DEMO_LINES: u8 = 8;

/// A permutation of the words of 1 to [`MOST_PERM_LINES`] lines.
///
/// A word goes by its number, in which line 0 is the most significant bit. The images and the preimages
/// stand in the order of the numbers, so a permutation of `n` lines takes 8 * 2^`n` bytes.
#[derive(Drop)]
pub struct Perm {
    lines: u8,
    images: Vec<u32>,
    preimages: Vec<u32>,
}

impl Model for Perm {
    ghost use Rattle.rv_perm.specs.Perm.{IsPerm, Table};
    ghost use Rattle.rv_perm.specs.inside.Places.{AreInverse};

    ghost Value = { Table };

    ghost view = { λ p. record { lines = p.lines; images = p.images.items } };

    ghost invariant = { λ p. IsPerm p.lines p.images.items × AreInverse p.images.items p.preimages.items };
}

impl Perm {
    /// The permutation that takes each `x` to `numbers[x]`.
    ///
    /// Refuses a list whose count is no 2^`n` for an `n` from 1 to [`MOST_PERM_LINES`]. Else the least
    /// place with a fault decides: a number that is not below the count is out of range, and a number that
    /// stands at an earlier place too is repeated. There are fewer numbers than a
    /// text has bytes.
    pub fn from_numbers(alloc: Global, numbers: &[u32]) -> Result<Perm, PermFault>
        requires { length numbers.now < MOST_BYTES }
        ensures table { IfOk result (λ p. table_of numbers.now ≡ Ok p) }
        ensures length { (count : ℕ) → IsErrOf result (PermFault.Length count)
            → table_of numbers.now ≡ Err (PermFault.Length count) }
        ensures out_of_range { (place : ℕ) → IsErrOf result (PermFault.OutOfRange place)
            → table_of numbers.now ≡ Err (PermFault.OutOfRange place) }
        ensures repeated { (first second : ℕ) → IsErrOf result (PermFault.Repeated first second)
            → table_of numbers.now ≡ Err (PermFault.Repeated first second) }
        ensures no_text { (fault : TextFault) → ¬ IsErrOf result (PermFault.Text fault) }
    {
        let Some(lines) = lines_of(numbers.len()) else {
            return Err(PermFault::Length(numbers.len() as u32));
        };
        Perm::with_lines(alloc, lines, numbers)
    }

    /// The permutation of so many lines with these images. Fails only for want of memory.
    pub fn from_images(alloc: Global, lines: u8, images: &[u32]) -> Result<Perm, AllocError>
        requires { IsPerm lines images.now }
        ensures { IfOk result (λ p. p ≡ record { lines = lines; images = images.now }) }
    {
        match Perm::with_lines(alloc, lines, images) {
            Ok(perm) => Ok(perm),
            Err(fault) => match fault {
                PermFault::Mem => Err(AllocError),
                _ => unreachable!(),
            },
        }
    }

    // The permutation of so many lines, or the first fault of the numbers.
    pub(crate) fn with_lines(alloc: Global, lines: u8, numbers: &[u32]) -> Result<Perm, PermFault>
        requires some { 1 ≤ lines }
        requires few { lines ≤ MOST_PERM_LINES }
        requires count { length numbers.now ≡ 2 ^ lines }
        ensures table { IfOk result (λ p. images_checked lines numbers.now ≡ Ok p) }
        ensures fault { IfErr result (λ f. (f ≡ Mem) ⊎ (images_checked lines numbers.now ≡ Err f)) }
    {
        let preimages = places_of(alloc, numbers)?;
        let Ok(images) = Vec::from_slice(alloc, numbers) else {
            return Err(PermFault::Mem);
        };
        Ok(Perm {
            lines,
            images,
            preimages,
        })
    }

    /// The number of lines, from 1 to [`MOST_PERM_LINES`].
    pub fn lines(&self) -> u8
        ensures value { result ≡ self.now.lines }
        ensures valid { IsPerm self.now.lines self.now.images }
    {
        self.lines
    }

    /// For proofs: recalls what every permutation keeps. Does nothing when it runs.
    pub fn recall_invariant(&self)
        ensures { IsPerm self.now.lines self.now.images }
    {
        let _ = &self.lines;
    }

    /// The number of the word to which the word with the number `x` goes.
    pub fn get(&self, x: u32) -> u32
        requires { x < 2 ^ self.now.lines }
        ensures { result ≡ slice_index self.now.images x }
    {
        self.images[x as usize]
    }

    /// The number of the word that goes to the word with the number `y`.
    pub fn inverse_get(&self, y: u32) -> u32
        requires { y < 2 ^ self.now.lines }
        ensures value { result ≡ preimage_of self.now.images y }
        ensures below { result < 2 ^ self.now.lines }
        ensures image { slice_index self.now.images result ≡ y }
        ensures preimage { (x : ℕ) → x < 2 ^ self.now.lines → slice_index self.now.images x ≡ y → result ≡ x }
    {
        self.preimages[y as usize]
    }

    /// Lets a flip act after the permutation: each image becomes what the gate makes of it.
    ///
    /// Takes no memory, and a time that grows with the number of words that hold the controls.
    pub fn apply_out(&mut self, gate: Gate)
        requires is_flip { IsFlip gate }
        requires fits { FitsIn gate self.old.lines }
        ensures lines { self.new.lines ≡ self.old.lines }
        ensures images { self.new.images ≡ map (act_on_number gate self.old.lines) self.old.images }
    {
        exchange(&mut self.preimages, &mut self.images, gate, self.lines);
    }

    /// Lets a flip act before the permutation: `x` gets the image of what the gate makes of it.
    ///
    /// Takes no memory, and a time that grows with the number of words that hold the controls.
    pub fn apply_in(&mut self, gate: Gate)
        requires is_flip { IsFlip gate }
        requires fits { FitsIn gate self.old.lines }
        ensures lines { self.new.lines ≡ self.old.lines }
        ensures images { self.new.images ≡ reindexed (act_on_number gate self.old.lines) self.old.images }
    {
        exchange(&mut self.images, &mut self.preimages, gate, self.lines);
    }

    /// The same permutation in memory of its own.
    pub fn copy(&self) -> Result<Perm, AllocError>
        ensures { IfOk result (λ p. p ≡ self.now) }
    {
        Ok(Perm {
            lines: self.lines,
            images: self.images.clone()?,
            preimages: self.preimages.clone()?,
        })
    }
}
