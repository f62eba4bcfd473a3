// The terms of a list of cubes.
ghost use Rattle.std.specs.Prelude.{◌≡◌, ◌≤◌, length};
ghost use Rattle.rv_cube.specs.Esop.{terms_of};

use rv_pla::Cube;

/// The cubes that carry an output, in their order. Takes no memory.
pub fn terms_of(cubes: Vec<Cube>) -> Vec<Cube>
    ensures value { result.items ≡ terms_of cubes.items }
    ensures no_more { length result.items ≤ length cubes.items }
{
    let mut terms = cubes;
    terms.retain(|cube| cube.outs != 0);
    terms
}
