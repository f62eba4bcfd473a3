use rv_pla::Cube;

/// A step of a reduction, with its places `a` < `b`. The definitions of the contracts speak of it.
#[derive(Clone, Copy)]
pub enum Step {
    /// The two cubes become one.
    Merge {
        a: usize,
        b: usize,
    },
    /// The two cubes become two others; then the one of these at `place` and the cube at `partner` become one.
    Exorlink {
        a: usize,
        b: usize,
        first: Cube,
        second: Cube,
        place: usize,
        partner: usize,
    },
}
