ghost use Rattle.std.specs.Prelude.{ℕ, ◌≡◌, ◌⊎◌, ◌^◌, ◌<◌, ◌≤◌, if◌then◌else◌, length, Some, None, Ok, Err, IfOk};
ghost use Rattle.std.specs.Prelude.{MatchResult};
ghost use Rattle.std.specs.Option.{option_or};
ghost use Rattle.rv_gate.specs.Gate.{run};
ghost use Rattle.rv_net.specs.Denotes.{Denotes};
ghost use Rattle.rv_check.specs.Check.{check_of, compared, first_difference, first_large, large_at, verdict_of};
ghost use Rattle.rv_check.specs.Laws.{AreInLowestTerms, IsExact};
ghost use Rattle.rv_check.specs.inside.AgreesAt.{AgreesAt};
ghost use Rattle.rv_check.specs.inside.View.{HasRoom};
ghost use Rattle.rv_check.specs.declared.checking.CheckFault.TheVariants.{Mem};
ghost use Rattle.rv_check.specs.declared.checking.TheConstants.{MOST_CHECKED_LINES};

use crate::following::{Followed, KeptVector};
use rv_gate::{Circuit, Word};
use rv_net::Net;
use std::alloc::{AllocError, Global};
use thiserror::Error;

/// The most lines of a circuit or network that is checked.
pub const MOST_CHECKED_LINES: u8 = 10;

/// What a check finds.
#[derive(Clone, Copy, Debug, PartialEq, Eq)]
pub enum Verdict {
    /// The network denotes the circuit's run, with no phase left free.
    Same,
    /// The circuit and the network have these numbers of lines, which differ.
    Lines(u8, u8),
    /// The word with this number is the least one from which some amplitude isn't that of the circuit.
    Differs(u16),
}

/// Why there is no verdict.
#[derive(Clone, Copy, Debug, PartialEq, Eq, Error)]
pub enum CheckFault {
    /// The circuit has so many lines, more than [`MOST_CHECKED_LINES`].
    #[error("{0} lines of the circuit are too many")]
    CircuitLines(u8),
    /// The network has so many lines, more than [`MOST_CHECKED_LINES`].
    #[error("{0} lines of the network are too many")]
    NetLines(u8),
    /// From this word, after so many operations, a coefficient of the reduced vector is beyond
    /// [`MOST_COEFFICIENT`](crate::MOST_COEFFICIENT).
    #[error("coefficient too large at operation {place} for word {word}")]
    TooLarge { word: u16, place: u32 },
    #[error("out of memory")]
    Mem,
}

impl From<AllocError> for CheckFault {
    ghost from_gives = { λ _ fault. fault ≡ Mem };

    fn from(_: AllocError) -> Self {
        CheckFault::Mem
    }
}

// Whether the amplitudes from the word with this number are those of the circuit.
fn agrees_at(
    kept: &mut KeptVector,
    circuit: &Circuit,
    net: &Net,
    number: u16,
) -> Result<bool, CheckFault>
    requires lines { length circuit.now.names ≡ net.now.lines }
    requires few { net.now.lines ≤ MOST_CHECKED_LINES }
    requires room { HasRoom net.now.lines kept.old }
    requires number { number < 2 ^ net.now.lines }
    ensures answer { MatchResult result (λ agreed. AgreesAt circuit.now.gates net.now number agreed)
        (λ fault. (fault ≡ Mem) ⊎ (large_at net.now number ≡ Some fault)) }
    ensures room { IfOk result (λ _. HasRoom net.now.lines kept.new) }
{
    let lines = net.lines();
    let Some(word) = Word::new(lines, u64::from(number)) else {
        unreachable!()
    };
    match kept.follow(net.ops(), word, circuit.run(word)) {
        Ok(Followed::Agrees(agrees)) => Ok(agrees),
        Ok(Followed::TooLarge(place)) => Err(CheckFault::TooLarge {
            word: number,
            place,
        }),
        Err(_) => Err(CheckFault::Mem),
    }
}

// The first difference, with that of one more word.
fn first_of(difference: Option<u16>, number: u16, agrees: bool) -> Option<u16>
    ensures { result ≡ option_or difference (if agrees then None else Some number) }
{
    match difference {
        Some(first) => Some(first),
        None => if agrees { None } else { Some(number) },
    }
}

fn verdict_of(difference: Option<u16>) -> Verdict
    ensures { result ≡ verdict_of difference }
{
    match difference {
        None => Verdict::Same,
        Some(number) => Verdict::Differs(number),
    }
}

// Compares a circuit with a network on as many lines, word by word.
fn compare(alloc: Global, circuit: &Circuit, net: &Net) -> Result<Verdict, CheckFault>
    requires lines { length circuit.now.names ≡ net.now.lines }
    requires few { net.now.lines ≤ MOST_CHECKED_LINES }
    ensures { MatchResult result
        (λ verdict. compared (first_large net.now) (first_difference circuit.now.gates net.now) ≡ Ok verdict)
        (λ fault. (fault ≡ Mem) ⊎ (compared (first_large net.now) (first_difference circuit.now.gates net.now)
        ≡ Err fault)) }
{
    let mut kept = KeptVector::new(alloc, net.lines())?;
    let mut difference = None;
    for number in 0..1u16 << net.lines() {
        match agrees_at(&mut kept, circuit, net, number) {
            Ok(agrees) => difference = first_of(difference, number, agrees),
            Err(fault) => return Err(fault),
        }
    }
    Ok(verdict_of(difference))
}

/// Checks whether a network denotes a circuit's run, exactly. The marks of the circuit aren't looked at.
///
/// Refused are more lines than [`MOST_CHECKED_LINES`], the circuit's first, and coefficients beyond
/// [`MOST_COEFFICIENT`](crate::MOST_COEFFICIENT).
pub fn check(alloc: Global, circuit: &Circuit, net: &Net) -> Result<Verdict, CheckFault>
    ensures answer { MatchResult result (λ verdict. check_of circuit.now net.now ≡ Ok verdict)
        (λ fault. (fault ≡ Mem) ⊎ (check_of circuit.now net.now ≡ Err fault)) }
    ensures exact { (result ≡ Err CheckFault.Mem) ⊎ IsExact circuit.now net.now result }
    ensures lowest_terms { AreInLowestTerms net.now }
{
    let (lines, net_lines) = (circuit.line_count(), net.lines());
    if lines > MOST_CHECKED_LINES {
        return Err(CheckFault::CircuitLines(lines));
    }
    if net_lines > MOST_CHECKED_LINES {
        return Err(CheckFault::NetLines(net_lines));
    }
    if lines != net_lines {
        return Ok(Verdict::Lines(lines, net_lines));
    }
    compare(alloc, circuit, net)
}
