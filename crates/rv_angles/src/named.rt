// Gates by their names in qelib1.inc and stdgates.inc, and by those that tools use.
ghost use Rattle.std.specs.Prelude.{◌≡◌, ◌∷◌, [], ◌≤◌, ◌<◌, IfSome, All};
ghost use Rattle.rv_angles.specs.Named.{angle_count, gate_of, is_without_angle, is_with_one, is_with_three, turn_gate};

use crate::gate::Gate;
use crate::matrix::Matrix;

fn is_without_angle(name: &[u8]) -> bool
    ensures { result ≡ is_without_angle name.now }
{
    matches!(name, b"sx" | b"sxdg" | b"cy" | b"ch" | b"ccz")
}

fn is_with_one(name: &[u8]) -> bool
    ensures { result ≡ is_with_one name.now }
{
    matches!(
        name,
        b"u1" | b"p" | b"rx" | b"ry" | b"rz" | b"cu1" | b"cp" | b"crz"
    )
}

fn is_with_three(name: &[u8]) -> bool
    ensures { result ≡ is_with_three name.now }
{
    matches!(name, b"u3" | b"u" | b"U")
}

/// How many angles a gate of this name has, if there is one.
pub fn angle_count(name: &[u8]) -> Option<usize>
    ensures { result ≡ angle_count name.now }
{
    if is_without_angle(name) {
        Some(0)
    } else if is_with_one(name) {
        Some(1)
    } else if name == b"u2".as_slice() {
        Some(2)
    } else if is_with_three(name) {
        Some(3)
    } else {
        None
    }
}

fn gate_without_angle(name: &[u8]) -> Option<Gate>
    ensures { result ≡ gate_of name.now [] }
{
    match name {
        b"sx" => Some(Gate::Sx),
        b"sxdg" => Some(Gate::Sxdg),
        b"cy" => Some(Gate::Cy),
        b"ch" => Some(Gate::Ch),
        b"ccz" => Some(Gate::Ccz),
        _ => None,
    }
}

// One whose angle is halved.
fn turn_gate(name: &[u8], half: u8) -> Option<Gate>
    requires { half < 8 }
    ensures { result ≡ turn_gate name.now half }
{
    match name {
        b"rx" => Some(Gate::One(Matrix::rx(half))),
        b"ry" => Some(Gate::One(Matrix::ry(half))),
        b"rz" => Some(Gate::One(Matrix::rz(half))),
        b"crz" => Some(Gate::Controlled(Matrix::rz(half))),
        _ => None,
    }
}

fn gate_with_one(name: &[u8], angle: u8) -> Option<Gate>
    ensures { result ≡ gate_of name.now (angle ∷ []) }
{
    match name {
        b"u1" | b"p" => return Some(Gate::One(Matrix::u(0, 0, angle % 8))),
        b"cu1" | b"cp" => return Some(Gate::Controlled(Matrix::u(0, 0, angle % 8))),
        _ => {}
    }
    if angle % 2 != 0 {
        return None;
    }
    turn_gate(name, angle % 16 / 2)
}

fn gate_with_two(name: &[u8], phi: u8, lambda: u8) -> Option<Gate>
    ensures { result ≡ gate_of name.now (phi ∷ lambda ∷ []) }
{
    if name != b"u2".as_slice() {
        return None;
    }
    Some(Gate::One(Matrix::u(1, phi % 8, lambda % 8)))
}

fn gate_with_three(name: &[u8], theta: u8, phi: u8, lambda: u8) -> Option<Gate>
    ensures { result ≡ gate_of name.now (theta ∷ phi ∷ lambda ∷ []) }
{
    if !is_with_three(name) || theta % 2 != 0 {
        return None;
    }
    Some(Gate::One(Matrix::u(theta % 16 / 2, phi % 8, lambda % 8)))
}

/// The gate of this name with angles in multiples of pi/4, where those that a gate halves are even.
pub fn gate_of(name: &[u8], angles: &[u8]) -> Option<Gate>
    ensures { result ≡ gate_of name.now angles.now }
{
    match angles {
        [] => gate_without_angle(name),
        [angle] => gate_with_one(name, *angle),
        [phi, lambda] => gate_with_two(name, *phi, *lambda),
        [theta, phi, lambda] => gate_with_three(name, *theta, *phi, *lambda),
        _ => None,
    }
}
