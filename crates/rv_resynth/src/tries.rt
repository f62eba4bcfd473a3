ghost use Rattle.std.specs.Prelude.{◌≡◌, ℕ, ◌+◌, ◌<◌, ◌≤◌, length, take, drop, All, IfOk, OnOk};
ghost use Rattle.rv_gate.specs.declared.circuit.TheConstants.{MOST_GATES};
ghost use Rattle.rv_resynth.specs.inside.Windows.{AreGates, Replaces, Splits};

use crate::replacing::{can_replace, have_room, replace};
use crate::window::{Choice, Window, collect};
use rv_gate::{Gate, MOST_GATES};
use rv_search::{Common, Plan, Prices, Random, SCALES, common_of, find, thinned};
use std::alloc::{AllocError, Global};

// What a window costs, at most, unless its first gate is dear.
const LIMITS: [u32; 4] = [30, 60, 120, 240];

// What is found in a window costs no more than this.
const MOST_PRICE: u64 = 4000;

// The lines of most windows, and one in so many has up to two more.
const MOST_LINES: usize = 6;

const WIDE: usize = 4;

// So many permutations are looked at in a window of much cost, and at most so many of each cost.
const NODES: u64 = 400;

const MOST_WIDTH: u64 = 32;

// So many moves are made of each.
const MOVES: usize = 100;

// Chooses how large a window may be that begins with the first gate.
fn chosen(gates: &[Gate], prices: &Prices, random: &mut Random) -> Choice {
    let first = match gates.first() {
        Some(gate) => prices.gate(*gate),
        None => 0,
    };
    let more = if random.below(WIDE) == 0 { 2 } else { 0 };
    let lines = 3 + random.below(MOST_LINES - 2 + more) as u32;
    let limit = LIMITS[random.below(LIMITS.len())].max(first.saturating_mul(2).saturating_add(20));
    let common = common_of(gates, lines, random);
    let lines = if common.is_none() { lines } else { lines - 1 };
    Choice {
        lines,
        limit,
        common,
        prices: *prices,
    }
}

// How gates of some cost are searched for.
fn plan_for(price: u64, random: &mut Random) -> Plan {
    Plan {
        bound: price.min(MOST_PRICE) as usize + 1,
        width: (NODES / price.max(16)).clamp(1, MOST_WIDTH) as usize,
        moves: MOVES,
        nodes: usize::MAX,
        scale: random.below(SCALES),
        salt: random.next() | 1,
        peres: random.below(2) == 0,
        controls: 8,
        patience: usize::MAX,
    }
}

// Gates that may stand in the place of a window's.
fn offered(
    alloc: Global,
    window: &[Gate],
    common: &Common,
    lines: u8,
    prices: &Prices,
    random: &mut Random,
) -> Result<Option<Vec<Gate>>, AllocError> {
    let found = if window.len() < 2 {
        match window.first() {
            Some(gate) => thinned(alloc, *gate, lines)?,
            None => None,
        }
    } else {
        let plan = plan_for(prices.gates(window), random);
        find(alloc, window, common, prices, &plan)?
    };
    let Some(new) = found else {
        return Ok(None);
    };
    if !prices.are_as_good(&new, window) {
        return Ok(None);
    }
    Ok(Some(new))
}

// Puts gates in the place of a window that was collected from a place on, from so many gates, if they make the same.
#[tactic(auto, using(crate::proofs::inside::Splitting::replaces_self, crate::proofs::inside::Splitting::replaced_in_room))]
fn put(
    gates: &mut Vec<Gate>,
    from: usize,
    count: usize,
    window: &Window,
    new: &[Gate],
    lines: u8,
) -> Result<(), AllocError>
    requires gates { AreGates lines gates.old.items }
    requires few { length gates.old.items ≤ MOST_GATES }
    requires from { from ≤ length gates.old.items }
    requires count { count ≤ length (drop from gates.old.items) }
    requires splits { Splits lines (take count (drop from gates.old.items)) window.now.gates.items
        window.now.passed.items }
    ensures { OnOk result (Replaces lines gates.old.items gates.new.items) }
{
    let passed = window.passed.len();
    if can_replace(&window.gates, new, lines) && have_room(gates.len(), count, new.len(), passed) {
        replace(gates, from, count, new, &window.passed)?;
    }
    Ok(())
}

// Tries one window.
#[tactic(auto, using(crate::proofs::inside::Splitting::replaces_self, crate::proofs::inside::Splitting::gates_drop))]
fn attempt(
    alloc: Global,
    gates: &mut Vec<Gate>,
    lines: u8,
    prices: &Prices,
    random: &mut Random,
) -> Result<(), AllocError>
    requires gates { AreGates lines gates.old.items }
    requires few { length gates.old.items ≤ MOST_GATES }
    ensures { OnOk result (Replaces lines gates.old.items gates.new.items) }
{
    if gates.is_empty() {
        return Ok(());
    }
    let from = random.below(gates.len());
    let (_, rest) = gates.split_at(from);
    let choice = chosen(rest, prices, random);
    let (window, count) = collect(alloc, rest, &choice, random)?;
    let common = &choice.common;
    let Some(new) = offered(alloc, &window.gates, common, lines, prices, random)? else {
        return Ok(());
    };
    put(gates, from, count, &window, &new, lines)
}

// Tries so many windows, one after another.
#[tactic(auto, using(crate::proofs::inside::Splitting::replaces_self, crate::proofs::inside::Splitting::replaces_more))]
pub(crate) fn tried(
    alloc: Global,
    old: Vec<Gate>,
    lines: u8,
    prices: &Prices,
    windows: u32,
    random: &mut Random,
) -> Result<Vec<Gate>, AllocError>
    requires gates { AreGates lines old.items }
    requires few { length old.items ≤ MOST_GATES }
    ensures { IfOk result (λ new. Replaces lines old.items new.items) }
{
    let mut gates = old;
    for _ in 0..windows {
        attempt(alloc, &mut gates, lines, prices, random)?;
    }
    Ok(gates)
}
