ghost use Rattle.std.specs.Prelude.{◌≡◌, length, IfOk, IfSome, IsTrue};
ghost use Rattle.rv_gate.specs.Gate.{run};
ghost use Rattle.rv_sums.specs.Finding.{DenotesFrom, IsRight, IsRightFrom, IsUndecided};
ghost use Rattle.rv_sums.specs.inside.State.{DiffersFrom, IsFound};

use crate::Finding;
use crate::beginning::{begun, has_constants};
use crate::differs::differs;
use crate::fault::PathFault;
use crate::held::held;
use crate::same::{flips, is_same};
use crate::suspects::suspects;
use crate::taking::Reach;
use rv_gate::{Circuit, MOST_LINES, Mark, Word};
use rv_net::Net;
use std::alloc::{AllocError, Global};

/// The most terms of a sum that is followed.
pub const MOST_TERMS: usize = 100_000;

/// The most steps of a check: a step is a term that is touched.
pub const MOST_STEPS: u64 = 4_000_000_000;

/// How many words are tried by themselves.
const MOST_WORDS: u8 = 24;

/// The most products of what is followed of a line that began with a constant.
pub(crate) const LITTLE: usize = 16;

// How far the search goes for flips that are taken early.
const NEAR: Reach = Reach {
    window: 64,
    ahead: 40,
    share: 16,
    steps: MOST_STEPS / 10,
};

// Flips are taken in their order.
const IN_ORDER: Reach = Reach {
    window: 1,
    ahead: 0,
    share: 1,
    steps: MOST_STEPS / 10,
};

const FAR: Reach = Reach {
    window: 200,
    ahead: 100,
    share: 16,
    steps: MOST_STEPS / 10 * 8,
};

// What a fault finds.
fn finding_of(fault: PathFault) -> Result<Finding, AllocError>
    ensures { IfOk result IsUndecided }
{
    match fault {
        PathFault::Terms => Ok(Finding::Terms),
        PathFault::Steps => Ok(Finding::Steps),
        PathFault::Paths => Ok(Finding::Paths(64)),
        PathFault::Mem => Err(AllocError),
    }
}

// Whether the sum over all words that hold the constants is that of each word to itself.
fn are_same(
    alloc: Global,
    circuit: &Circuit,
    net: &Net,
    marks: &[Mark],
    reach: Reach,
) -> Result<bool, PathFault>
    requires { length circuit.now.names ≡ net.now.lines }
    ensures { IfOk result (λ same.
        IsTrue same → DenotesFrom marks.now net.now.lines net.now.ops (run circuit.now.gates)) }
{
    let flips = flips(alloc, circuit)?;
    let lines = net.lines();
    let same = is_same(alloc, lines, net.ops(), &flips, marks, reach)?;
    Ok(same)
}

// The same by the first search that comes to an end, and which that is.
fn are_same_by_some(
    alloc: Global,
    circuit: &Circuit,
    net: &Net,
    marks: &[Mark],
) -> Result<(bool, Reach), PathFault>
    requires { length circuit.now.names ≡ net.now.lines }
    ensures { IfOk result (λ r.
        IsTrue r.0 → DenotesFrom marks.now net.now.lines net.now.ops (run circuit.now.gates)) }
{
    match are_same(alloc, circuit, net, marks, NEAR) {
        Ok(same) => return Ok((same, NEAR)),
        Err(PathFault::Mem) => return Err(PathFault::Mem),
        Err(_) => {}
    }
    match are_same(alloc, circuit, net, marks, IN_ORDER) {
        Ok(same) => return Ok((same, IN_ORDER)),
        Err(PathFault::Mem) => return Err(PathFault::Mem),
        Err(_) => {}
    }
    let same = are_same(alloc, circuit, net, marks, FAR)?;
    Ok((same, FAR))
}

// The same where a line of which more is known, at some flip, is followed as any other.
fn are_same_with(
    alloc: Global,
    circuit: &Circuit,
    net: &Net,
    marks: &[Mark],
) -> Result<(bool, Reach), PathFault>
    requires { length circuit.now.names ≡ net.now.lines }
    ensures { IfOk result (λ r.
        IsTrue r.0 → DenotesFrom marks.now net.now.lines net.now.ops (run circuit.now.gates)) }
{
    let held = held(alloc, circuit, marks)?;
    let sums = are_same_by_some(alloc, circuit, net, &held)?;
    Ok(sums)
}

// Whether the network differs at the word with this number, as the sum from this word shows.
fn differs_at(
    alloc: Global,
    circuit: &Circuit,
    net: &Net,
    marks: &[Mark],
    number: u64,
) -> Result<bool, AllocError>
    requires { length circuit.now.names ≡ net.now.lines }
    ensures { IfOk result (λ differs. IsTrue differs → DiffersFrom marks.now circuit.now net.now number) }
{
    let lines = net.lines();
    let Some(word) = Word::new(lines, number) else {
        return Ok(false);
    };
    if !has_constants(marks, word) {
        return Ok(false);
    }
    let image = circuit.run(word);
    match differs(alloc, word, image, net.ops()) {
        Ok(differs) => Ok(differs),
        Err(PathFault::Mem) => Err(AllocError),
        Err(_) => Ok(false),
    }
}

// Tries some words: none 1, all 1, and others, but for the constants.
fn try_words(
    alloc: Global,
    circuit: &Circuit,
    net: &Net,
    marks: &[Mark],
) -> Result<Option<u64>, AllocError>
    requires { length circuit.now.names ≡ net.now.lines }
    ensures { IfOk result (λ o. IfSome o (DiffersFrom marks.now circuit.now net.now)) }
{
    let all = u64::MAX >> (MOST_LINES - net.lines());
    let mut number: u64 = 0;
    let mut random: u64 = 0x9e37_79b9_7f4a_7c15;
    'words: for _ in 0..MOST_WORDS {
        let begun = begun(net.lines(), marks, number);
        let found = differs_at(alloc, circuit, net, marks, begun)?;
        if found {
            return Ok(Some(begun));
        }
        number = if number == 0 { all } else { random & all };
        random = random
            .wrapping_mul(6_364_136_223_846_793_005)
            .wrapping_add(1_442_695_040_888_963_407);
    }
    Ok(None)
}

// Tries the words at which what is left of the sum shows that they may differ.
fn try_suspects(
    alloc: Global,
    circuit: &Circuit,
    net: &Net,
    marks: &[Mark],
    reach: Reach,
) -> Result<Option<u64>, PathFault>
    requires { length circuit.now.names ≡ net.now.lines }
    ensures { IfOk result (λ o. IfSome o (DiffersFrom marks.now circuit.now net.now)) }
{
    let flips = flips(alloc, circuit)?;
    let lines = net.lines();
    let held = held(alloc, circuit, marks)?;
    let suspects = suspects(alloc, lines, net.ops(), &flips, &held, reach)?;
    for number in &suspects {
        let begun = begun(lines, marks, *number);
        let found = differs_at(alloc, circuit, net, marks, begun)?;
        if found {
            return Ok(Some(begun));
        }
    }
    Ok(None)
}

// What the sums find.
fn by_sums(
    alloc: Global,
    circuit: &Circuit,
    net: &Net,
    marks: &[Mark],
) -> Result<Finding, PathFault>
    requires { length circuit.now.names ≡ net.now.lines }
    ensures { IfOk result (IsFound marks.now circuit.now net.now) }
{
    let sums = are_same_with(alloc, circuit, net, marks)?;
    let same = sums.0;
    if same {
        return Ok(Finding::Same);
    }
    match try_suspects(alloc, circuit, net, marks, sums.1)? {
        Some(number) => Ok(Finding::Differs(number)),
        None => Ok(Finding::Paths(0)),
    }
}

// First some words are tried by themselves, then the sum over all words, and then words that it leads to.
fn find(alloc: Global, circuit: &Circuit, net: &Net, marks: &[Mark]) -> Result<Finding, AllocError>
    requires { length circuit.now.names ≡ net.now.lines }
    ensures { IfOk result (IsFound marks.now circuit.now net.now) }
{
    if let Some(number) = try_words(alloc, circuit, net, marks)? {
        return Ok(Finding::Differs(number));
    }
    match by_sums(alloc, circuit, net, marks) {
        Ok(finding) => Ok(finding),
        Err(fault) => finding_of(fault),
    }
}

// The same where all lines are followed while little is known of them, or nothing, and all words are taken.
fn are_same_otherwise(
    alloc: Global,
    circuit: &Circuit,
    net: &Net,
    marks: &[Mark],
) -> Result<bool, PathFault>
    requires { length circuit.now.names ≡ net.now.lines }
    ensures { IfOk result (λ same.
        IsTrue same → DenotesFrom marks.now net.now.lines net.now.ops (run circuit.now.gates)) }
{
    match are_same_by_some(alloc, circuit, net, marks) {
        Ok((true, _)) => return Ok(true),
        Err(PathFault::Mem) => return Err(PathFault::Mem),
        _ => {}
    }
    let sums = are_same_by_some(alloc, circuit, net, &[])?;
    let same = sums.0;
    Ok(same)
}

// What is found otherwise, where nothing is found so far.
fn found_otherwise(
    alloc: Global,
    circuit: &Circuit,
    net: &Net,
    marks: &[Mark],
    found: Finding,
) -> Result<Finding, AllocError>
    requires lines { length circuit.now.names ≡ net.now.lines }
    requires found { IsFound marks.now circuit.now net.now found }
    ensures { IfOk result (IsFound marks.now circuit.now net.now) }
{
    match found {
        Finding::Same | Finding::Differs(_) => return Ok(found),
        _ => {}
    }
    match are_same_otherwise(alloc, circuit, net, marks) {
        Ok(true) => Ok(Finding::Same),
        Err(PathFault::Mem) => Err(AllocError),
        _ => Ok(found),
    }
}

/// Checks whether a network denotes a circuit's run, exactly, by a sum over paths. The marks of the circuit aren't
/// looked at.
///
/// First some words are tried by themselves, then the sum over all words, and then words that it leads to.
pub fn check_by_paths(alloc: Global, circuit: &Circuit, net: &Net) -> Result<Finding, AllocError>
    requires { length circuit.now.names ≡ net.now.lines }
    ensures { IfOk result (IsRight circuit.now net.now) }
{
    let finding = find(alloc, circuit, net, &[])?;
    Ok(finding)
}

/// Checks whether a network does what a circuit does from each word that holds the circuit's constants: a line that is
/// marked as constant begins so. All lines are compared, also those that are marked as garbage.
pub fn check_from_constants(
    alloc: Global,
    circuit: &Circuit,
    net: &Net,
) -> Result<Finding, AllocError>
    requires { length circuit.now.names ≡ net.now.lines }
    ensures { IfOk result (IsRightFrom circuit.now net.now) }
{
    let marks = circuit.constant_row();
    let found = find(alloc, circuit, net, marks)?;
    let finding = found_otherwise(alloc, circuit, net, marks, found)?;
    Ok(finding)
}
