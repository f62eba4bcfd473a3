// Where cubes stand in a list, by their inputs. Nothing rests on the answers: who asks looks at the slot.

use rv_pla::Cube;
use std::alloc::{AllocError, Global};

// So many entries are looked at, from a cube's own on.
const WINDOW: usize = 64;

/// Leads from the inputs of a cube to its slot. An entry that finds no room is left out.
#[derive(Drop)]
pub struct Finder {
    // the inputs of a cube, and its slot and 1 more; or 0
    entries: Vec<u64>,
    mask: usize,
}

#[inline(always)]
fn key_of(care: u16, want: u16) -> u64 {
    u64::from(care) << 16 | u64::from(want)
}

#[inline(always)]
fn home_of(key: u64) -> usize {
    (key.wrapping_mul(0x9E37_79B9_7F4A_7C15) >> 32) as usize
}

#[inline(always)]
fn entry_of(key: u64, slot: usize) -> u64 {
    key << 32 | slot.wrapping_add(1) as u64 & 0xFFFF_FFFF
}

impl Finder {
    /// For a list of about so many cubes.
    pub fn new(alloc: Global, cubes: &[Cube]) -> Result<Finder, AllocError> {
        let mut count = 1024usize;
        for _turn in 0..18u8 {
            if count / 8 < cubes.len() {
                count = count.saturating_mul(2);
            }
        }
        let entries = vec![in alloc; 0u64; count]?;
        let mut finder = Finder {
            entries,
            mask: count.wrapping_sub(1),
        };
        for slot in 0..cubes.len() {
            finder.enter(cubes[slot], slot);
        }
        Ok(finder)
    }

    /// Makes it larger, if the list has become long.
    pub fn fit(&mut self, alloc: Global, cubes: &[Cube]) -> Result<(), AllocError> {
        if self.entries.len() / 4 < cubes.len() {
            *self = Finder::new(alloc, cubes)?;
        }
        Ok(())
    }

    /// A slot with a cube of these inputs.
    #[inline(always)]
    pub fn find(&self, care: u16, want: u16) -> Option<usize> {
        let key = key_of(care, want);
        let home = home_of(key);
        for step in 0..WINDOW {
            let at = home.wrapping_add(step) & self.mask;
            if at >= self.entries.len() {
                return None;
            }
            let entry = self.entries[at];
            if entry == 0 {
                return None;
            }
            if entry >> 32 == key {
                return Some((entry as usize & 0xFFFF_FFFF).wrapping_sub(1));
            }
        }
        None
    }

    fn enter(&mut self, cube: Cube, slot: usize) {
        let key = key_of(cube.care, cube.want);
        let home = home_of(key);
        for step in 0..WINDOW {
            let at = home.wrapping_add(step) & self.mask;
            if at < self.entries.len() && self.entries[at] == 0 {
                self.entries[at] = entry_of(key, slot);
                return;
            }
        }
    }

    // The place of an entry.
    fn place_of(&self, cube: Cube, slot: usize) -> Option<usize> {
        let key = key_of(cube.care, cube.want);
        let home = home_of(key);
        let entry = entry_of(key, slot);
        for step in 0..WINDOW {
            let at = home.wrapping_add(step) & self.mask;
            if at < self.entries.len() && self.entries[at] == entry {
                return Some(at);
            }
        }
        None
    }

    // Takes out the entry at a place; later ones that may stand nearer to their own place move up.
    fn clear(&mut self, place: usize) {
        let mut hole = place;
        for step in 1..WINDOW {
            let at = place.wrapping_add(step) & self.mask;
            if at >= self.entries.len() || hole >= self.entries.len() {
                return;
            }
            let entry = self.entries[at];
            if entry == 0 {
                self.entries[hole] = 0;
                return;
            }
            let from_home = at.wrapping_sub(home_of(entry >> 32)) & self.mask;
            if from_home >= at.wrapping_sub(hole) & self.mask {
                self.entries[hole] = entry;
                hole = at;
            }
        }
        if hole < self.entries.len() {
            self.entries[hole] = 0;
        }
    }

    /// A cube has come in at the end.
    pub fn put(&mut self, cubes: &[Cube], cube: Cube) {
        self.enter(cube, cubes.len().wrapping_sub(1));
    }

    /// A cube was taken out of a slot, and the last one came there.
    pub fn taken(&mut self, cubes: &[Cube], cube: Cube, slot: usize) {
        if let Some(place) = self.place_of(cube, slot) {
            self.clear(place);
        }
        if slot < cubes.len() {
            let moved = cubes[slot];
            if let Some(place) = self.place_of(moved, cubes.len()) {
                if place < self.entries.len() {
                    self.entries[place] = entry_of(key_of(moved.care, moved.want), slot);
                }
            }
        }
    }
}
