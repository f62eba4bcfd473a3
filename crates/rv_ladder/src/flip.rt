ghost use Rattle.std.specs.List.{range_with_len};
ghost use Rattle.std.specs.Prelude.{◌≡◌, ◌+◌, ◌≤◌, ◌++◌, ◌∷◌, [], length, reverse, IfOk};
ghost use Rattle.rv_net.specs.Network.{on_zero, toffoli};
ghost use Rattle.rv_net.specs.declared.op.Op.TheVariants.{H, Cx};
ghost use Rattle.rv_ladder.specs.Ladder.{borrowed_flip, borrowed_over, clean_flip, clean_over, down, half, lines_of};
ghost use Rattle.rv_ladder.specs.Ladder.{quarter, quarter_back, rung, zeros};

use rv_gate::MOST_LINES;
use rv_mct::Control;
use rv_net::{Op, add_on_zero, add_toffoli};
use std::alloc::AllocError;

// The first part of a rung, and the operation after it.
fn open_rung(ops: &mut Vec<Op>, c: u8, h: u8, t: u8) -> Result<(), AllocError>
    ensures { IfOk result (λ _. ops.new.items ≡ ops.old.items ++ (H t ∷ (half c t ++ (Cx h t ∷ [])))) }
{
    let block = [Op::H(t), Op::T(t), Op::Cx(c, t), Op::Tdg(t), Op::Cx(h, t)];
    ops.extend_from_slice(&block)?;
    Ok(())
}

// The operation before the last part of a rung, and this part.
fn close_rung(ops: &mut Vec<Op>, c: u8, h: u8, t: u8) -> Result<(), AllocError>
    ensures { IfOk result (λ _. ops.new.items ≡ ops.old.items ++ (Cx h t ∷ (half c t ++ (H t ∷ [])))) }
{
    let block = [Op::Cx(h, t), Op::T(t), Op::Cx(c, t), Op::Tdg(t), Op::H(t)];
    ops.extend_from_slice(&block)?;
    Ok(())
}

// A flip of t under a and b, up to a power of w.
fn add_first(ops: &mut Vec<Op>, a: u8, b: u8, t: u8) -> Result<(), AllocError>
    ensures { IfOk result (λ _. ops.new.items ≡ ops.old.items ++ rung b t (Cx a t ∷ [])) }
{
    let block = [
        Op::H(t),
        Op::T(t),
        Op::Cx(b, t),
        Op::Tdg(t),
        Op::Cx(a, t),
        Op::T(t),
        Op::Cx(b, t),
        Op::Tdg(t),
        Op::H(t),
    ];
    ops.extend_from_slice(&block)?;
    Ok(())
}

// The ladder down and up again, where the last of `more` and of `helpers` come first.
fn add_down(
    ops: &mut Vec<Op>,
    a: u8,
    b: u8,
    more: &[Control],
    helpers: &[u8],
    t: u8,
) -> Result<(), AllocError>
    requires enough { length more.now ≡ length helpers.now }
    ensures { IfOk result (λ _. ops.new.items ≡ ops.old.items
        ++ down a b (lines_of (reverse more.now)) (reverse helpers.now) t) }
{
    if more.is_empty() {
        add_first(ops, a, b, t)?;
        return Ok(());
    }
    let last = more.len() - 1;
    let control = more[last].line;
    let helper = helpers[last];
    open_rung(ops, control, helper, t)?;
    add_down(ops, a, b, &more[..last], &helpers[..last], helper)?;
    close_rung(ops, control, helper, t)?;
    Ok(())
}

fn open_quarter(ops: &mut Vec<Op>, c: u8, h: u8, t: u8) -> Result<(), AllocError>
    ensures { IfOk result (λ _. ops.new.items ≡ ops.old.items ++ (H t ∷ quarter c h t)) }
{
    let block = [
        Op::H(t),
        Op::T(h),
        Op::Cx(c, h),
        Op::Tdg(h),
        Op::Cx(t, h),
        Op::T(h),
        Op::Cx(c, h),
        Op::Tdg(h),
        Op::Cx(t, h),
    ];
    ops.extend_from_slice(&block)?;
    Ok(())
}

fn add_quarter_back(ops: &mut Vec<Op>, c: u8, h: u8, t: u8) -> Result<(), AllocError>
    ensures { IfOk result (λ _. ops.new.items ≡ ops.old.items ++ quarter_back c h t) }
{
    let block = [
        Op::Cx(t, h),
        Op::T(h),
        Op::Cx(c, h),
        Op::Tdg(h),
        Op::Cx(t, h),
        Op::T(h),
        Op::Cx(c, h),
        Op::Tdg(h),
    ];
    ops.extend_from_slice(&block)?;
    Ok(())
}

// A flip under positive controls, where the last of `more` and of `helpers` come first.
fn add_borrowed_flip(
    ops: &mut Vec<Op>,
    a: u8,
    b: u8,
    more: &[Control],
    helpers: &[u8],
    t: u8,
) -> Result<(), AllocError>
    requires enough { length more.now ≡ length helpers.now }
    ensures { IfOk result (λ _. ops.new.items ≡ ops.old.items
        ++ borrowed_flip a b (lines_of (reverse more.now)) (reverse helpers.now) t) }
{
    if more.is_empty() {
        add_toffoli(ops, a, b, t)?;
        return Ok(());
    }
    let last = more.len() - 1;
    let control = more[last].line;
    let helper = helpers[last];
    open_quarter(ops, control, helper, t)?;
    add_down(ops, a, b, &more[..last], &helpers[..last], helper)?;
    add_quarter_back(ops, control, helper, t)?;
    add_down(ops, a, b, &more[..last], &helpers[..last], helper)?;
    ops.push(Op::H(t))?;
    Ok(())
}

fn add_zeros(ops: &mut Vec<Op>, controls: &[Control]) -> Result<(), AllocError>
    ensures { IfOk result (λ _. ops.new.items ≡ ops.old.items ++ zeros controls.now) }
{
    for control in controls {
        add_on_zero(ops, *control)?;
    }
    Ok(())
}

// A flip under positive controls, over lines from `helper` on that hold 0.
fn add_clean_flip(
    ops: &mut Vec<Op>,
    a: u8,
    b: u8,
    more: &[Control],
    helper: u8,
    t: u8,
) -> Result<(), AllocError>
    requires room { helper + length more.now ≤ MOST_LINES }
    ensures { IfOk result (λ _. ops.new.items ≡ ops.old.items
        ++ clean_flip a b (lines_of more.now) (range_with_len helper (length more.now)) t) }
{
    if more.is_empty() {
        add_toffoli(ops, a, b, t)?;
        return Ok(());
    }
    let control = more[0].line;
    add_first(ops, a, b, helper)?;
    add_clean_flip(ops, helper, control, &more[1..], helper + 1, t)?;
    add_first(ops, a, b, helper)?;
    Ok(())
}

/// Adds the network of a flip under two controls or more, with the lines from `first` on, which hold 0, as helpers.
pub(crate) fn add_clean(
    ops: &mut Vec<Op>,
    controls: &[Control],
    first: u8,
    t: u8,
) -> Result<(), AllocError>
    requires some { 2 ≤ length controls.now }
    requires room { first + length controls.now ≤ MOST_LINES + 2 }
    ensures { IfOk result (λ _. ops.new.items ≡ ops.old.items ++ clean_over controls.now first t) }
{
    add_zeros(ops, controls)?;
    add_clean_flip(
        ops,
        controls[0].line,
        controls[1].line,
        &controls[2..],
        first,
        t,
    )?;
    add_zeros(ops, controls)?;
    Ok(())
}

/// Adds the network of a flip under two controls or more, with the first of the free lines as helpers.
pub(crate) fn add_borrowed(
    ops: &mut Vec<Op>,
    controls: &[Control],
    free: &[u8],
    t: u8,
) -> Result<(), AllocError>
    requires some { 2 ≤ length controls.now }
    requires enough { length controls.now ≤ length free.now + 2 }
    ensures { IfOk result (λ _. ops.new.items ≡ ops.old.items ++ borrowed_over controls.now free.now t) }
{
    add_zeros(ops, controls)?;
    add_borrowed_flip(
        ops,
        controls[0].line,
        controls[1].line,
        &controls[2..],
        &free[..controls.len() - 2],
        t,
    )?;
    add_zeros(ops, controls)?;
    Ok(())
}
