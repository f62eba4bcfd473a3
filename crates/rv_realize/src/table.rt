ghost use Rattle.std.specs.Prelude.{◌≡◌, ◌⊎◌, ◌≤◌, ℕ, Err, IfErr, IfOk, length};
ghost use Rattle.rv_embed.specs.Realizes.{Realizes};
ghost use Rattle.rv_gate.specs.Gate.{run};
ghost use Rattle.rv_gate.specs.declared.word.TheConstants.{MOST_LINES};
ghost use Rattle.rv_realize.specs.Realized.{IsRealized, IsTooFew, IsTooLong};
ghost use Rattle.rv_realize.specs.declared.options.RealizeFault.TheVariants.{Mem, TooManyGates, TooManyLines};

use crate::best::best_of;
use crate::first::first_circuit;
use crate::free::has_free;
use crate::ways::circuits_for;
use crate::{RealizeFault, RealizeOptions};
use rv_gate::{Circuit, MOST_LINES};
use rv_perm::MOST_PERM_LINES;
use rv_pla::Pla;
use std::alloc::Global;

// The best of a circuit that is right and those that are found.
fn improved(
    alloc: Global,
    pla: &Pla,
    first: Circuit,
    options: RealizeOptions,
) -> Result<Circuit, RealizeFault>
    requires { IsRealized pla.now options.lines first }
    ensures realized { IfOk result (IsRealized pla.now options.lines) }
    ensures mem { IfErr result (λ fault. fault ≡ Mem) }
{
    let found = circuits_for(alloc, pla, Some(&first), options)?;
    match best_of(alloc, Some(first), found, pla, options) {
        Some(circuit) => Ok(circuit),
        None => unreachable!(),
    }
}

// Whether there is no circuit on fewer lines than a fault tells, so that none is looked for.
fn is_final(pla: &Pla, fault: RealizeFault) -> bool {
    match fault {
        RealizeFault::TooManyLines(lines) => lines <= MOST_PERM_LINES && !has_free(pla),
        RealizeFault::TooManyGates | RealizeFault::Mem => false,
    }
}

// The best of the circuits that are found, or a fault if none is right.
fn found(
    alloc: Global,
    pla: &Pla,
    fault: RealizeFault,
    options: RealizeOptions,
) -> Result<Circuit, RealizeFault>
    ensures realized { IfOk result (IsRealized pla.now options.lines) }
    ensures unmade { IfErr result (λ why. (why ≡ fault) ⊎ (why ≡ Mem)) }
{
    if is_final(pla, fault) {
        return Err(fault);
    }
    let found = circuits_for(alloc, pla, None, options)?;
    match best_of(alloc, None, found, pla, options) {
        Some(circuit) => Ok(circuit),
        None => Err(fault),
    }
}

/// The best circuit that is found for a table on at most so many lines: with its constants put in and its garbage left
/// out, it gives what the table asks.
///
/// Lines named `x0`, `x1`, and so on hold the inputs, and all others 0. Fewer lines than [`embed`](rv_embed::embed)
/// takes are refused where no circuit with so few is found; where no entry is free, there is none. Where it takes more
/// than 16 lines, one for each input and output is enough, if the reduced exclusive sum has few gates enough. What comes
/// out depends on the arguments alone.
pub fn realize(alloc: Global, pla: &Pla, options: RealizeOptions) -> Result<Circuit, RealizeFault>
    requires { options.lines ≤ MOST_LINES }
    ensures realizes { IfOk result (λ c. Realizes pla.now (run c.gates) c.constants c.garbage) }
    ensures lines { IfOk result (λ c. length c.names ≤ options.lines) }
    ensures too_many_lines { (n : ℕ) → result ≡ Err (TooManyLines n) → IsTooFew pla.now options.lines n }
    ensures too_many_gates { result ≡ Err TooManyGates → IsTooLong pla.now options.lines }
{
    match first_circuit(alloc, pla, options.lines) {
        Ok(first) => improved(alloc, pla, first, options),
        Err(fault) => found(alloc, pla, fault, options),
    }
}
