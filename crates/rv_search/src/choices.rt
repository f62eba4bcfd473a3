// The flips that bring the line of their target nearest to itself.
use crate::scale::Scale;
use crate::space::{Cube, Space};
use crate::table::{Table, at, put_at, weight_of};
use std::alloc::{AllocError, Global};

// The key of a flip that changes nothing; the less the better.
const EVEN: u32 = 1 << 20;

// So many keys on each side of it are told apart.
const KEYS: u32 = 1024;

// A flip, by the number of its cube, that can be taken off.
#[derive(Clone, Copy)]
pub(crate) struct Choice {
    key: u32,
    pub(crate) cube: usize,
    pub(crate) target: u8,
    pub(crate) front: bool,
}

impl Choice {
    // A flip that isn't compared with others.
    pub(crate) fn at(cube: usize, target: u8, front: bool) -> Choice {
        Choice {
            key: EVEN,
            cube,
            target,
            front,
        }
    }
}

// Room for a choice: the tables of the products of lines, the forms of cubes, how often a key stands there, the flips.
#[derive(Drop)]
pub(crate) struct Choices<T> {
    products: Vec<T>,
    forms: Vec<T>,
    counts: Vec<u32>,
    pub(crate) all: Vec<Choice>,
}

// How far the lines of a permutation and of its inverse are from themselves.
#[derive(Drop)]
pub(crate) struct Measured<T> {
    pub(crate) forms: Vec<T>,
    pub(crate) weights: Vec<u32>,
}

// The place of a key.
fn key_place(key: u32) -> usize {
    if key < EVEN {
        return (KEYS - 1 - (EVEN - key).min(KEYS - 1)) as usize;
    }
    (KEYS + (key - EVEN).min(KEYS - 1)) as usize
}

// The key of a flip of some price that makes a new weight of an old one.
#[inline(always)]
fn key_of(new: u32, old: u32, price: u32) -> u32 {
    if new < old {
        return EVEN.saturating_sub((old - new).wrapping_mul(64) / price.saturating_add(2).max(1));
    }
    EVEN.saturating_add(new - old)
}

impl<T: Table> Choices<T> {
    pub(crate) fn new(alloc: Global, space: &Space<T>) -> Result<Choices<T>, AllocError> {
        Ok(Choices {
            products: vec![in alloc; T::zero(); 1 << space.lines.min(8)]?,
            forms: vec![in alloc; T::zero(); space.cubes.len()]?,
            counts: vec![in alloc; 0u32; 2 * KEYS as usize]?,
            all: Vec::new(alloc),
        })
    }

    // Sets the products of the lines of some tables.
    fn set_products(&mut self, lines: usize, tables: &[T], from: usize) {
        put_at(&mut self.products, 0, T::zero().not());
        for care in 1..1usize << lines.min(8) {
            let line = care.trailing_zeros() as usize;
            let rest = at(&self.products, care & (care - 1));
            let product = rest.and(at(tables, from.wrapping_add(line)));
            put_at(&mut self.products, care, product);
        }
    }

    // Sets the forms of the cubes.
    fn set_forms(&mut self, space: &Space<T>) {
        for number in 0..space.cubes.len() {
            let cube = space.cubes[number];
            let form = if cube.is_positive() {
                at(&self.products, usize::from(cube.care)).form()
            } else {
                at(&self.forms, cube.without).xor(at(&self.forms, cube.turned))
            };
            put_at(&mut self.forms, number, form);
        }
    }

    // Adds a flip, with its key.
    fn push(&mut self, choice: Choice) -> Result<(), AllocError> {
        let count = key_place(choice.key);
        if count < self.counts.len() {
            self.counts[count] = self.counts[count].wrapping_add(1);
        }
        self.all.push(choice)?;
        Ok(())
    }

    // Adds the flips at one side with the controls of a cube.
    fn add(
        &mut self,
        space: &Space<T>,
        measured: &Measured<T>,
        cube: &Cube,
        number: usize,
        front: bool,
        scale: &Scale,
    ) -> Result<(), AllocError> {
        let from = if front { space.lines } else { 0 };
        let form = at(&self.forms, number);
        for target in 0..space.lines.min(8) {
            if cube.suits(target, space.bundle) {
                let place = from.wrapping_add(target);
                let new = weight_of(at(&measured.forms, place).xor(form), scale);
                let old = number_at(&measured.weights, place);
                self.push(Choice {
                    key: key_of(new, old, cube.price),
                    cube: number,
                    target: (target % 8) as u8,
                    front,
                })?;
            }
        }
        Ok(())
    }

    // Adds the flips at one side that cost less than there is room.
    fn add_all(
        &mut self,
        space: &Space<T>,
        measured: &Measured<T>,
        front: bool,
        room: usize,
        scale: &Scale,
    ) -> Result<(), AllocError> {
        for number in 0..space.cubes.len() {
            let cube = space.cubes[number];
            if cube.costs_less(room) {
                self.add(space, measured, &cube, number, front, scale)?;
            }
        }
        Ok(())
    }

    // Keeps so many of the best.
    fn cut(&mut self, most: usize) {
        if self.all.len() <= most {
            return;
        }
        let (mut sum, mut last, mut spare) = (0usize, 0usize, 0usize);
        for place in 0..self.counts.len() {
            if sum < most {
                last = place;
                spare = most - sum;
                sum = sum.wrapping_add(self.counts[place] as usize);
            }
        }
        let mut kept = 0usize;
        for number in 0..self.all.len() {
            let choice = self.all[number];
            let place = key_place(choice.key);
            if place < last || place == last && spare > 0 {
                if place == last {
                    spare = spare.saturating_sub(1);
                }
                if kept < self.all.len() {
                    self.all[kept] = choice;
                }
                kept = kept.wrapping_add(1);
            }
        }
        self.all.truncate(kept);
    }

    // Chooses flips that cost less than there is room.
    pub(crate) fn choose(
        &mut self,
        space: &Space<T>,
        tables: &[T],
        measured: &Measured<T>,
        room: usize,
        most: usize,
        scale: &Scale,
    ) -> Result<(), AllocError> {
        self.all.clear();
        for place in 0..self.counts.len() {
            self.counts[place] = 0;
        }
        self.set_products(space.lines, tables, 0);
        self.set_forms(space);
        self.add_all(space, measured, false, room, scale)?;
        self.set_products(space.lines, tables, space.lines);
        self.set_forms(space);
        self.add_all(space, measured, true, room, scale)?;
        self.cut(most);
        Ok(())
    }
}

// The number at a place of a list.
#[inline(always)]
pub(crate) fn number_at(numbers: &[u32], place: usize) -> u32 {
    match numbers.get(place) {
        Some(number) => *number,
        None => 0,
    }
}
