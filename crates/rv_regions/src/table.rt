// Of each region the parities that carry terms there.
use crate::common::{add, at, number_of, part};
use crate::flow::Flow;
use std::alloc::{AllocError, Global};

/// A parity at the start of a region, and its term.
#[derive(Clone, Copy)]
pub(crate) struct Entry {
    pub(crate) set: u64,
    pub(crate) term: u32,
}

/// Of each region its entries, by parity.
#[derive(Drop)]
pub(crate) struct Table {
    entries: Vec<Entry>,
    ends: Vec<usize>,
}

impl Table {
    fn new(alloc: Global) -> Table {
        Table {
            entries: Vec::new(alloc),
            ends: Vec::new(alloc),
        }
    }

    /// The entries of a region.
    pub(crate) fn of_region(&self, region: usize) -> &[Entry] {
        let start = if region == 0 {
            0
        } else {
            at(&self.ends, region.wrapping_sub(1), 0)
        };
        part(&self.entries, start, at(&self.ends, region, 0))
    }

    /// The term of a parity at the start of a region.
    pub(crate) fn find(&self, region: usize, set: u64) -> Option<usize> {
        let list = self.of_region(region);
        let (mut low, mut high) = (0usize, list.len());
        for _ in 0..64 {
            if low >= high {
                break;
            }
            let middle = low.wrapping_add(high) / 2;
            let entry = list.get(middle)?;
            if entry.set == set {
                return Some(entry.term as usize);
            }
            if entry.set < set {
                low = middle.wrapping_add(1);
            } else {
                high = middle;
            }
        }
        None
    }

    // The entries of a region that the next one has too.
    fn carry(&mut self, flow: &Flow, region: usize) -> Result<(), AllocError> {
        let start = if region == 0 {
            0
        } else {
            at(&self.ends, region.wrapping_sub(1), 0)
        };
        for place in start..self.entries.len() {
            let none = Entry { set: 0, term: 0 };
            let entry = at(&self.entries, place, none);
            if let Some(set) = flow.later(region, entry.set) {
                self.entries.push(Entry { set, ..entry })?;
            }
        }
        Ok(())
    }

    // The entries from a place on are those of a region.
    fn close(&mut self, start: usize) -> Result<(), AllocError> {
        let end = self.entries.len();
        if start <= end {
            self.entries[start..end].sort_unstable_by_key(|entry| entry.set);
        }
        add(&mut self.ends, end)
    }
}

/// The table of a flow whose terms are settled.
pub(crate) fn table_of(alloc: Global, flow: &Flow) -> Result<Table, AllocError> {
    let mut table = Table::new(alloc);
    let mut next = 0usize;
    for region in 0..flow.count() {
        let start = table.entries.len();
        if region > 0 {
            table.carry(flow, region.wrapping_sub(1))?;
        }
        for place in next..flow.terms.len() {
            let term = flow.term(place);
            if term.home != region {
                break;
            }
            let entry = Entry {
                set: term.set,
                term: number_of(place),
            };
            table.entries.push(entry)?;
            next = place.wrapping_add(1);
        }
        table.close(start)?;
    }
    Ok(table)
}
