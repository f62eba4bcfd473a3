// Outputs made of outputs: where the cubes get cheaper if an output has the exclusive or of itself and another one,
// they give that, and a CNOT before and after brings it back.
ghost use Rattle.std.specs.Prelude.{◌≡◌, ◌≢◌, ◌<◌, ◌≤◌, length, All, IfOk};
ghost use Rattle.rv_pla.specs.declared.cube.TheConstants.{MOST_INPUTS, MOST_OUTPUTS};
ghost use Rattle.rv_cube.specs.Esop.{IsTerm};
ghost use Rattle.rv_cube.specs.declared.list.TheConstants.{MOST_CUBES};
ghost use Rattle.rv_esop.specs.inside.Basis.{linked, AreLinked, IsTurned};

use rv_cube::MOST_CUBES;
use rv_exorlink::{Free, Goal, flip_cost, shorten};
use rv_pla::{Cube, MOST_INPUTS, MOST_OUTPUTS, has};
use std::alloc::{AllocError, Global};

// A cube with the output `to` changed, if it has the output `from`.
fn linked_cube(cube: Cube, from: u8, to: u8) -> Cube
    requires from { from < MOST_OUTPUTS }
    requires to { to < MOST_OUTPUTS }
    ensures { result ≡ record cube { outs = linked from to cube.outs } }
{
    if has(cube.outs, from) {
        Cube {
            care: cube.care,
            want: cube.want,
            outs: cube.outs ^ 1 << to,
        }
    } else {
        cube
    }
}

fn linked_cubes(alloc: Global, cubes: &[Cube], from: u8, to: u8) -> Result<Vec<Cube>, AllocError>
    requires from { from < MOST_OUTPUTS }
    requires to { to < MOST_OUTPUTS }
    ensures { IfOk result (λ v. AreLinked from to cubes.now v.items) }
{
    let mut all = Vec::new(alloc);
    for cube in cubes {
        all.push(linked_cube(*cube, from, to))?;
    }
    Ok(all)
}

/// Cubes that give the same, but that the output `to` has that of `from` besides.
pub fn turned(
    alloc: Global,
    cubes: &[Cube],
    from: u8,
    to: u8,
    inputs: u8,
    outputs: u8,
    goal: Goal,
    effort: u16,
    seed: u16,
) -> Result<Vec<Cube>, AllocError>
    requires few_inputs { inputs ≤ MOST_INPUTS }
    requires few_outputs { outputs ≤ MOST_OUTPUTS }
    requires few { length cubes.now ≤ MOST_CUBES }
    requires valid { All (IsTerm inputs outputs) cubes.now }
    requires from { from < outputs }
    requires to { to < outputs }
    requires apart { from ≢ to }
    ensures { IfOk result (λ v. IsTurned inputs outputs from to cubes.now v.items) }
{
    let mut all = linked_cubes(alloc, cubes, from, to)?;
    shorten(
        alloc,
        &mut all,
        inputs,
        &Free::none(alloc),
        goal,
        effort,
        seed,
    )?;
    Ok(all)
}

/// What cubes cost if those of each set of outputs are written the cheaper way.
pub fn cost_of_sets(alloc: Global, cubes: &[Cube], goal: Goal) -> Result<u64, AllocError> {
    let mut sorted = Vec::from_slice(alloc, cubes)?;
    sorted.sort_unstable_by_key(|cube| cube.outs);
    let mut cost = 0u64;
    let mut alone = 0u64;
    for i in 0..sorted.len() {
        alone = alone.saturating_add(flip_cost(goal, sorted[i].care.count_ones()));
        if i + 1 >= sorted.len() || sorted[i + 1].outs != sorted[i].outs {
            let count = u64::from(sorted[i].outs.count_ones());
            let links = count
                .saturating_sub(1)
                .saturating_mul(flip_cost(goal, 1).saturating_mul(2));
            cost = cost.saturating_add(
                alone.saturating_mul(count).min(alone.saturating_add(links)),
            );
            alone = 0;
        }
    }
    Ok(cost)
}

/// Two outputs.
#[derive(Clone, Copy)]
pub struct Link {
    pub from: u8,
    pub to: u8,
}

// From so many cubes on no other basis is tried.
const MOST_TRIED: usize = 256;

/// The link by which the cubes get cheapest, if one makes them cheaper. Nothing rests on the answer.
pub fn best_link(
    alloc: Global,
    cubes: &[Cube],
    inputs: u8,
    outputs: u8,
    goal: Goal,
    effort: u16,
    seed: u16,
) -> Result<Option<Link>, AllocError>
    requires few_inputs { inputs ≤ MOST_INPUTS }
    requires few_outputs { outputs ≤ MOST_OUTPUTS }
    requires few { length cubes.now ≤ MOST_CUBES }
    requires valid { All (IsTerm inputs outputs) cubes.now }
{
    let mut best = None;
    if cubes.len() > MOST_TRIED {
        return Ok(None);
    }
    let mut least = cost_of_sets(alloc, cubes, goal)?;
    let links = flip_cost(goal, 1).saturating_mul(2);
    for from in 0..outputs {
        for to in 0..outputs {
            if from != to {
                let other = turned(alloc, cubes, from, to, inputs, outputs, goal, effort, seed)?;
                let cost = cost_of_sets(alloc, &other, goal)?.saturating_add(links);
                if cost < least {
                    least = cost;
                    best = Some(Link { from, to });
                }
            }
        }
    }
    Ok(best)
}
