//! Networks as sums over paths: whether two with H have the same amplitudes, whatever the number of lines and of H.
#![tactic(auto)]

mod arranging;
mod following;
mod masks;
mod phases;
mod rows;
mod terms;

ghost use Rattle.rv_paths.specs.Paths.{IsSumOverPaths};
ghost use Rattle.rv_net.specs.declared.op.Op.{Op};
ghost use Rattle.std.specs.Prelude.{List};

pub use following::have_same_sums;

/// Each amplitude of a network is a sum over paths.
pub fn amplitudes()
    ensures sums { (ops : List Op) → IsSumOverPaths ops }
{}
