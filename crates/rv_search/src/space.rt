// The gates on a few lines among which a search chooses.
use crate::beam::Target;
use crate::lower::Least;
use crate::prices::Prices;
use crate::table::{PLACES, Table, at, held, put_at};
use std::alloc::{AllocError, Global};

// Of each number of lines, how many ways there are to have on each no control or one that wants 0 or 1.
const CUBES: [usize; PLACES + 1] = [1, 3, 9, 27, 81, 243, 729, 2187, 6561];

// The second target of a gate that has one alone.
pub(crate) const NONE: u8 = 255;

// Controls, of which each want is a bit. Those that want 0 are told by two other cubes: one without the lowest of them,
// and one in which it wants 1.
#[derive(Clone, Copy)]
pub(crate) struct Cube {
    pub(crate) care: u8,
    pub(crate) want: u8,
    pub(crate) price: u32,
    pub(crate) without: usize,
    pub(crate) turned: usize,
    pub(crate) usable: bool,
}

impl Cube {
    // Whether each control wants 1.
    pub(crate) fn is_positive(&self) -> bool {
        self.care == self.want
    }

    pub(crate) fn costs_less(&self, room: usize) -> bool {
        (self.price as usize) < room
    }

    // Whether they can be those of a flip of a line. That of a bundle isn't flipped.
    pub(crate) fn suits(&self, target: usize, bundle: usize) -> bool {
        self.usable && self.care >> (target % 8) & 1 == 0 && target != bundle
    }
}

// A gate taken off a permutation: a flip, or a Peres gate, which has two positive controls, of which one is a target
// too.
#[derive(Clone, Copy, PartialEq, Eq, PartialOrd, Ord)]
pub(crate) struct Move {
    pub(crate) care: u8,
    pub(crate) want: u8,
    pub(crate) target: u8,
    pub(crate) second: u8,
    pub(crate) front: bool,
    pub(crate) price: u32,
}

// The line, among those of a search, that stands for some controls, and how many these are. There is none at `PLACES`.
#[derive(Clone, Copy)]
pub(crate) struct Bundle {
    pub(crate) line: usize,
    pub(crate) size: u32,
}

#[derive(Drop)]
pub(crate) struct Space<T> {
    pub(crate) lines: usize,
    pub(crate) bundle: usize,
    pub(crate) cubes: Vec<Cube>,
    pub(crate) peres: u32,
    pub(crate) toffoli: u32,
    pub(crate) bounded: bool,
    variables: Vec<T>,
}

// The cube of a number whose digits, of base 3, tell each line: no control, one that wants 1, one that wants 0.
fn cube_of(number: usize, lines: usize, bundle: Bundle, prices: &Prices) -> Cube {
    let (mut care, mut want, mut rest) = (0u8, 0u8, number);
    let (mut without, mut turned, mut usable) = (number, number, true);
    for line in 0..lines.min(PLACES) {
        let digit = rest % 3;
        rest /= 3;
        if digit > 0 {
            care |= 1 << line;
        }
        if digit == 1 {
            want |= 1 << line;
        }
        if digit == 2 {
            if without == number {
                turned = number.saturating_sub(CUBES[line]);
                without = turned.saturating_sub(CUBES[line]);
            }
            usable = usable && line != bundle.line;
        }
    }
    let mut controls = care.count_ones();
    if bundle.line < PLACES && care >> bundle.line & 1 == 1 {
        controls = controls
            .saturating_add(bundle.size.min(64))
            .saturating_sub(1);
    }
    Cube {
        care,
        want,
        price: prices.flip(controls),
        without,
        turned,
        usable,
    }
}

impl<T: Table> Space<T> {
    pub(crate) fn new(
        alloc: Global,
        lines: usize,
        bundle: Bundle,
        prices: &Prices,
    ) -> Result<Space<T>, AllocError> {
        let lines = lines.min(PLACES);
        let mut cubes = Vec::new(alloc);
        for number in 0..CUBES[lines] {
            cubes.push(cube_of(number, lines, bundle, prices))?;
        }
        let mut variables = Vec::new(alloc);
        for line in 0..lines {
            variables.push(T::variable(line))?;
        }
        Ok(Space {
            lines,
            bundle: bundle.line,
            cubes,
            peres: prices.peres(),
            toffoli: prices.flip(2),
            bounded: prices.bounded,
            variables,
        })
    }

    // What gates cost at least.
    pub(crate) fn least(&self, peres: bool) -> Least {
        let (product, targets) = if peres {
            (self.toffoli.min(self.peres), 2)
        } else {
            (self.toffoli, 1)
        };
        Least {
            product: usize::try_from(product).unwrap_or(0),
            targets,
            any: 1,
        }
    }

    // The tables of the permutation that changes no word, and then those of its inverse.
    pub(crate) fn start(&self, alloc: Global) -> Result<Vec<T>, AllocError> {
        let mut tables = Vec::from_slice(alloc, &self.variables)?;
        tables.extend_from_slice(&self.variables)?;
        Ok(tables)
    }

    // The permutation that changes no word, as what is wanted.
    pub(crate) fn end(&self, alloc: Global) -> Result<Target<T>, AllocError> {
        let mut forms = Vec::new(alloc);
        for line in 0..self.lines {
            forms.push(at(&self.variables, line).form())?;
        }
        Ok(Target {
            forms,
            free: 0,
            part: 1,
            factors: vec![in alloc; 1u32; self.lines]?,
        })
    }

    // Takes a flip off a permutation, at its front or at its back.
    #[inline(always)]
    pub(crate) fn flip_off(&self, tables: &mut [T], care: u8, want: u8, target: u8, front: bool) {
        let (own, other) = if front {
            (self.lines, 0)
        } else {
            (0, self.lines)
        };
        let target = usize::from(target);
        let on = held(tables, own, care, want);
        let place = own.wrapping_add(target);
        put_at(tables, place, at(tables, place).xor(on));
        let mask = held(&self.variables, 0, care, want);
        for line in 0..self.lines {
            let place = other.wrapping_add(line);
            let table = at(tables, place);
            let differ = table.xor(table.exchanged(target)).and(mask);
            put_at(tables, place, table.xor(differ));
        }
    }

    // Takes a gate off a permutation.
    pub(crate) fn take_off(&self, tables: &mut [T], by: &Move) {
        if by.second == NONE {
            self.flip_off(tables, by.care, by.want, by.target, by.front);
            return;
        }
        let one = by.care & !(1 << (by.second % 8));
        if by.front {
            self.flip_off(tables, by.care, by.care, by.target, true);
            self.flip_off(tables, one, one, by.second, true);
        } else {
            self.flip_off(tables, one, one, by.second, false);
            self.flip_off(tables, by.care, by.care, by.target, false);
        }
    }
}
