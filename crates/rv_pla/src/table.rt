ghost use Rattle.std.specs.Prelude.{◌≡◌, ◌≤◌, ◌^◌, All, IfOk};
ghost use Rattle.rv_pla.specs.declared.cube.TheConstants.{MOST_INPUTS, MOST_OUTPUTS};
ghost use Rattle.rv_pla.specs.Cube.{IsCube};
ghost use Rattle.rv_pla.specs.Pla.{is_esop};
ghost use Rattle.rv_pla.specs.inside.Table.{beside, part, IsGathered};

use crate::join::join;
use crate::kind::{Kind, is_esop};
use crate::term::Term;
use std::alloc::{AllocError, Global};

// What a type needs beside ON to tell its entries.
fn beside(kind: Kind, term: &Term) -> u16
    ensures { result ≡ beside kind term.now }
{
    match kind {
        Kind::Fd => term.dash_outs,
        Kind::Fr | Kind::Fdr => term.zero_outs,
        Kind::F | Kind::Esop => 0,
    }
}

fn part(kind: Kind, second: bool, term: &Term) -> u16
    ensures { result ≡ part kind second term.now }
{
    if second {
        beside(kind, term)
    } else {
        term.cube.outs
    }
}

// For each word the outputs of which the terms say ON, or those of which they say something else.
pub(crate) fn gathered(
    alloc: Global,
    inputs: u8,
    kind: Kind,
    second: bool,
    terms: &[Term],
) -> Result<Vec<u16>, AllocError>
    requires some { 1 ≤ inputs }
    requires few { inputs ≤ MOST_INPUTS }
    requires cubes { All (λ term. IsCube inputs MOST_OUTPUTS term.cube) terms.now }
    ensures { IfOk result (λ table. IsGathered (is_esop kind) (part kind second) inputs terms.now table.items) }
{
    let mut table = vec![in alloc; 0u16; 1usize << inputs]?;
    for term in terms {
        join(
            &mut table,
            inputs,
            term.cube,
            part(kind, second, term),
            is_esop(kind),
        );
    }
    Ok(table)
}
