// The angles of a gate, token by token.
ghost use Rattle.std.specs.Prelude.{◌≡◌, option_map};
ghost use Rattle.rv_import.specs.Angles.{angles_step, no_angles, next_angle, right_angles, with_ended};

use arrayvec::ArrayVec;
use rv_angles::Angle;
use std::marker::Model;

/// The most angles of a gate.
pub const MOST_ANGLES: usize = 3;

/// Angles that are read token by token, with commas between them.
#[derive(Drop)]
pub struct Angles {
    ended: ArrayVec<u8, 3>,
    current: Angle,
    is_wrong: bool,
}

impl Model for Angles {
    ghost use Rattle.rv_angles.specs.Angle.{IsRead};
    ghost use Rattle.rv_import.specs.Angles.{AnglesSoFar};

    ghost Value = { AnglesSoFar };

    ghost view = { λ a. record { ended = a.ended.items; current = a.current; is_wrong = a.is_wrong } };

    ghost invariant = { λ a. IsRead a.current };
}

impl Angles {
    /// Nothing is read.
    pub fn begun() -> Angles
        ensures { result ≡ no_angles }
    {
        Angles {
            ended: ArrayVec::new(),
            current: Angle::begun(),
            is_wrong: false,
        }
    }

    fn with_ended(&mut self, angle: Option<u8>)
        ensures { self.new ≡ with_ended self.old angle }
    {
        match angle {
            Some(angle) if self.ended.len() != MOST_ANGLES => {
                self.ended.push(angle);
                self.current = Angle::begun();
            }
            _ => self.is_wrong = true,
        }
    }

    fn next_angle(&mut self)
        ensures { self.new ≡ next_angle self.old }
    {
        self.with_ended(self.current.eighths());
    }

    /// With one token more.
    pub fn step(&mut self, token: &[u8])
        ensures { self.new ≡ angles_step self.old token.now }
    {
        if token == b",".as_slice() {
            self.next_angle();
        } else {
            self.current = self.current.step(token);
        }
    }

    /// At the closing parenthesis: the angles in multiples of pi/4, if each is one and they are no more than three.
    pub fn finish(self) -> Option<ArrayVec<u8, 3>>
        ensures { option_map (λ angles. angles.items) result ≡ right_angles (next_angle self) }
    {
        let mut all = self;
        all.next_angle();
        if all.is_wrong {
            return None;
        }
        Some(all.ended)
    }
}
