//! The built-in templates.
ghost use Rattle.std.specs.Prelude.{◌≡◌, ◌+◌, ◌^◌, IfOk, bit_or};
ghost use Rattle.rv_templ.specs.declared.image.TheConstants.{TEMPLATE_LINES};
ghost use Rattle.rv_gate.specs.Gate.{IsGate, flip_under};
ghost use Rattle.rv_templ.specs.BuiltIn.{crossed, exchanges, built_in};
ghost use Rattle.rv_templ.specs.Gates.{AreGates};
ghost use Rattle.rv_templ.specs.inside.Library.{templates_in};

use rv_gate::{Gate, LineSet};
use std::alloc::{AllocError, Global};

// The flip that acts where each line of `care` has the bit 1.
fn flip(care: LineSet, target: u8) -> Gate
    requires { IsGate (flip_under care target) }
    ensures { result ≡ flip_under care target }
{
    match Gate::flip(care, care, target) {
        Some(gate) => gate,
        None => unreachable!(),
    }
}

// Flips `s` under the first set and the next line under the second one and `s`, both twice, and then undoes what they
// did: flips the next line under both sets.
fn crossed(alloc: Global, first: LineSet, second: LineSet, s: u8) -> Result<Vec<Gate>, AllocError>
    requires { AreGates TEMPLATE_LINES (crossed first second s) }
    ensures { IfOk result (λ t. t.items ≡ crossed first second s) }
{
    let a = flip(first, s);
    let b = flip(second | 1 << s, s + 1);
    let c = flip(first | second, s + 1);
    Vec::from_slice(alloc, &[a, b, a, b, c])
}

// Exchanges two lines and exchanges them again.
fn exchanges(alloc: Global) -> Result<Vec<Gate>, AllocError>
    ensures { IfOk result (λ t. t.items ≡ exchanges) }
{
    let a = flip(0b01, 1);
    let b = flip(0b10, 0);
    Vec::from_slice(alloc, &[a, b, a, b, a, b])
}

/// The built-in templates.
pub fn templates(alloc: Global) -> Result<Vec<Vec<Gate>>, AllocError>
    ensures { IfOk result (λ templates. templates_in templates.items ≡ built_in) }
{
    let mut templates = Vec::new(alloc);
    templates.push(crossed(alloc, 0b00, 0b00, 0)?)?;
    templates.push(crossed(alloc, 0b00, 0b01, 1)?)?;
    templates.push(crossed(alloc, 0b00, 0b11, 2)?)?;
    templates.push(crossed(alloc, 0b01, 0b00, 1)?)?;
    templates.push(crossed(alloc, 0b01, 0b10, 2)?)?;
    templates.push(crossed(alloc, 0b11, 0b00, 2)?)?;
    templates.push(exchanges(alloc)?)?;
    Ok(templates)
}
