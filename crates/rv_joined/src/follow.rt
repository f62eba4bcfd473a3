// Flips and phases, followed by forms.
ghost use Rattle.std.specs.Prelude.{◌≡◌, ◌+◌, ◌<◌, ◌≤◌, ◌^◌, ◌∷◌, [], Bool, List, length, IfOk, IfSome, IsTrue};
ghost use Rattle.rv_gate.specs.Gate.{IsFlipOn};
ghost use Rattle.rv_gate.specs.declared.gate.Shape.TheVariants.{Flip};
ghost use Rattle.rv_gate.specs.declared.word.TheConstants.{MOST_LINES};
ghost use Rattle.rv_mct.specs.Blocks.{controls_of, flip_wish};
ghost use Rattle.rv_forms.specs.Forms.{form_value};
ghost use Rattle.rv_forms.specs.inside.Held.{Tells};
ghost use Rattle.rv_joined.specs.Blocks.{phase_bit};
ghost use Rattle.rv_joined.specs.inside.Brings.{Grows, IsLiteral, IsOnLine, IsToffoli, columns};

use crate::block::{Block, add_block};
use crate::phase::{Phase, add_phase, is_summed, power_of};
use crate::setup::Setup;
use crate::slots::{add, add_parts};
use crate::state::State;
use rv_forms::{Form, Term, follow_gate, sum, turned};
use rv_gate::{Gate, LineSet, MOST_LINES, Shape};
use rv_ladder::add_flip_net;
use rv_mct::{Control, first_control};
use std::alloc::{AllocError, Global};

// What a line holds.
fn on_line(alloc: Global, held: &[Form], line: u8) -> Result<Option<Form>, AllocError>
    ensures { IfOk result (λ o. IfSome o (IsOnLine held.now line)) }
{
    if usize::from(line) >= held.len() {
        return Ok(None);
    }
    let form = turned(alloc, &held[usize::from(line)], false)?;
    Ok(Some(form))
}

// Whether a control has its wanted value.
fn literal(alloc: Global, held: &[Form], control: Control) -> Result<Option<Form>, AllocError>
    ensures { IfOk result (λ o. IfSome o (IsLiteral held.now control)) }
{
    let line = usize::from(control.line);
    if line >= held.len() {
        return Ok(None);
    }
    let form = turned(alloc, &held[line], !control.wanted)?;
    Ok(Some(form))
}

/// Two controls of a flip, and its target.
#[derive(Clone, Copy)]
pub(crate) struct Toffoli {
    pub(crate) a: Control,
    pub(crate) c: Control,
    pub(crate) target: u8,
}

// The controls of a set of two lines.
fn two_controls(care: LineSet, want: LineSet) -> Option<(Control, Control)>
    ensures { IfSome result (λ two. controls_of care want ≡ two.0 ∷ two.1 ∷ []) }
{
    let (a, rest) = first_control(care, want)?;
    let (c, rest) = first_control(rest, want)?;
    match first_control(rest, want) {
        Some(_) => None,
        None => Some((a, c)),
    }
}

// If it has just two controls.
pub(crate) fn toffoli_of(flip: Gate) -> Option<Toffoli>
    ensures { IfSome result (IsToffoli flip) }
{
    match flip.shape() {
        Shape::Flip { care, want, target } => {
            let (a, c) = two_controls(care, want)?;
            Some(Toffoli { a, c, target })
        }
        _ => None,
    }
}

fn follow_block(
    alloc: Global,
    setup: Setup,
    terms: &[Term],
    state: &mut State,
    flip: Gate,
    block: Block,
    claim: Option<u32>,
) -> Result<bool, AllocError>
    requires few { setup.lines + setup.extra ≤ MOST_LINES }
    requires columns { columns setup + length terms.now ≤ 2 ^ 32 }
    requires lines { length state.old.held.items ≤ MOST_LINES }
    requires own { IsFlipOn setup.lines flip }
    ensures { IfOk result (λ done. IsTrue done → Grows setup terms.now state.old (flip ∷ []) state.new) }
{
    let Some(toffoli) = toffoli_of(flip) else {
        return Ok(false);
    };
    let Some(a) = literal(alloc, &state.held, toffoli.a)? else {
        return Ok(false);
    };
    let Some(c) = literal(alloc, &state.held, toffoli.c)? else {
        return Ok(false);
    };
    let Some(before) = on_line(alloc, &state.held, toffoli.target)? else {
        return Ok(false);
    };
    let first = usize::from(setup.lines + setup.extra);
    if !follow_gate(alloc, terms, first, &mut state.held, flip, claim)? {
        return Ok(false);
    }
    let Some(after) = on_line(alloc, &state.held, toffoli.target)? else {
        return Ok(false);
    };
    add_parts(alloc, &mut state.slots, block, &a, &c, &before, &after)?;
    add_block(&mut state.ops, block, toffoli.a, toffoli.c, toffoli.target)?;
    Ok(true)
}

/// A flip. `false` where it can't be followed.
pub(crate) fn follow_flip(
    alloc: Global,
    setup: Setup,
    terms: &[Term],
    state: &mut State,
    flip: Gate,
    block: Option<Block>,
    claim: Option<u32>,
) -> Result<bool, AllocError>
    requires few { setup.lines + setup.extra ≤ MOST_LINES }
    requires columns { columns setup + length terms.now ≤ 2 ^ 32 }
    requires lines { length state.old.held.items ≤ MOST_LINES }
    requires own { IsFlipOn setup.lines flip }
    requires enough { flip_wish setup.aux setup.lines flip ≤ setup.extra }
    ensures { IfOk result (λ done. IsTrue done → Grows setup terms.now state.old (flip ∷ []) state.new) }
{
    let Some(block) = block else {
        add_flip_net(&mut state.ops, setup.aux, setup.lines, setup.extra, flip)?;
        let first = usize::from(setup.lines + setup.extra);
        let followed = follow_gate(alloc, terms, first, &mut state.held, flip, claim)?;
        return Ok(followed);
    };
    let followed = follow_block(alloc, setup, terms, state, flip, block, claim)?;
    Ok(followed)
}

// The form of its parity.
fn parity(alloc: Global, held: &[Form], phase: Phase) -> Result<Option<Form>, AllocError>
    ensures { IfOk result (λ o. IfSome o (λ form. (bits x : List Bool) → Tells bits held.now x
        → form_value bits form ≡ phase_bit phase x)) }
{
    let Some(own) = on_line(alloc, held, phase.line)? else {
        return Ok(None);
    };
    let Some(other) = on_line(alloc, held, phase.other)? else {
        return Ok(None);
    };
    if !is_summed(phase) {
        let form = turned(alloc, &own, phase.turned)?;
        return Ok(Some(form));
    }
    let both = sum(alloc, &other, &own)?;
    let form = turned(alloc, &both, phase.turned)?;
    Ok(Some(form))
}

/// A phase. `false` where it can't be followed.
pub(crate) fn follow_phase(
    alloc: Global,
    setup: Setup,
    terms: &[Term],
    state: &mut State,
    phase: Phase,
) -> Result<bool, AllocError>
    requires few { setup.lines + setup.extra ≤ MOST_LINES }
    ensures { IfOk result (λ done. IsTrue done → Grows setup terms.now state.old [] state.new) }
{
    let lines = setup.lines + setup.extra;
    if phase.line >= lines || phase.other >= lines {
        return Ok(false);
    }
    let Some(form) = parity(alloc, &state.held, phase)? else {
        return Ok(false);
    };
    add(alloc, &mut state.slots, &form, power_of(phase))?;
    add_phase(&mut state.ops, phase)?;
    Ok(true)
}
