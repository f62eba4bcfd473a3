// Three flips that are a swap.
ghost use Rattle.std.specs.Prelude.{◌≡◌, ◌+◌, ◌<◌, ◌≤◌, ◌++◌, ◌∷◌, [], drop, length, slice_index_or, All, IfNone};
ghost use Rattle.std.specs.Prelude.{IfSome, None, Some};
ghost use Rattle.rv_gate.specs.declared.gate.Shape.TheVariants.{Peres};
ghost use Rattle.rv_mct.specs.Blocks.{controls_of};
ghost use Rattle.rv_expand.specs.Toffoli.{as_swap, beside, gate_op, is_on, is_only, swap_op, toffoli_ops};

use rv_gate::{Gate, LineSet, Shape};
use rv_mct::{Control, first_control};

/// Lines `a` and `b` are exchanged, under one control or none.
#[derive(Clone, Copy)]
pub(crate) struct Exchange {
    pub(crate) control: Option<Control>,
    pub(crate) a: u8,
    pub(crate) b: u8,
}

fn is_on(line: u8, control: Control) -> bool
    ensures { result ≡ is_on line control }
{
    control.wanted && control.line == line
}

fn is_only(line: u8, care: LineSet, want: LineSet) -> bool
    ensures { result ≡ is_only line (controls_of care want) }
{
    let Some((control, others)) = first_control(care, want) else {
        return false;
    };
    match first_control(others, want) {
        None => is_on(line, control),
        Some(_) => false,
    }
}

fn beside(line: u8, care: LineSet, want: LineSet) -> Option<Option<Control>>
    ensures { result ≡ beside line (controls_of care want) }
{
    let Some((first, others)) = first_control(care, want) else {
        return None;
    };
    let Some((second, more)) = first_control(others, want) else {
        return if is_on(line, first) { Some(None) } else { None };
    };
    match first_control(more, want) {
        Some(_) => None,
        None => beside_two(line, first, second),
    }
}

fn beside_two(line: u8, first: Control, second: Control) -> Option<Option<Control>>
    ensures { result ≡ beside line (first ∷ second ∷ []) }
{
    if is_on(line, first) {
        Some(Some(second))
    } else if is_on(line, second) {
        Some(Some(first))
    } else {
        None
    }
}

fn as_swap(first: Gate, inner: Gate, last: Gate) -> Option<Exchange>
    ensures some { IfSome result (λ e. as_swap first inner last ≡ Some (swap_op e.control e.a e.b)) }
    ensures none { IfNone result (as_swap first inner last ≡ None) }
{
    match (first.shape(), inner.shape(), last.shape()) {
        (
            Shape::Flip {
                care,
                want,
                target: a,
            },
            Shape::Flip {
                care: inner_care,
                want: inner_want,
                target: b,
            },
            Shape::Flip {
                care: last_care,
                want: last_want,
                target: c,
            },
        ) => {
            if last_care == care && last_want == want && c == a && is_only(b, care, want) {
                match beside(a, inner_care, inner_want) {
                    Some(control) => Some(Exchange { control, a, b }),
                    None => None,
                }
            } else {
                None
            }
        }
        _ => None,
    }
}

/// The swap that begins at a place.
pub(crate) fn swap_at(gates: &[Gate], place: usize) -> Option<Exchange>
    requires { place < length gates.now }
    ensures some { IfSome result (λ e. toffoli_ops (drop place gates.now)
        ≡ swap_op e.control e.a e.b ++ toffoli_ops (drop (place + 3) gates.now)) }
    ensures three { IfSome result (λ e. place + 3 ≤ length gates.now) }
    ensures none { IfNone result (toffoli_ops (drop place gates.now)
        ≡ gate_op (slice_index_or gates.now place (Peres 0 0 0)) ++ toffoli_ops (drop (place + 1) gates.now)) }
{
    if gates.len() - place < 3 {
        return None;
    }
    as_swap(gates[place], gates[place + 1], gates[place + 2])
}
