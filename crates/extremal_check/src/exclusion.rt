ghost use Rattle.std.specs.Prelude.{◌≡◌, ◌↔◌, IsTrue};
ghost use Rattle.pop_model.specs.Cycles.{demand};
ghost use Rattle.pop_model.specs.Extremal.{Exclude};
ghost use Rattle.extremal_check.specs.Clashes.{DemandsOther};

use pop_instance::Cube;

// The value that the cube demands of variable v, if it names v. The search tries this place first,
// which succeeds for cubes over the same variables.
fn demanded(cube: &Cube, place: u32, v: u32) -> Option<u32>
    ensures { result ≡ demand cube.now v }
{
    if place < cube.len() {
        let (w, value) = cube.pair(place);
        if w == v {
            return Some(value);
        }
    }
    cube.demand(v)
}

// Whether the cube demands another value of variable v. The search tries this place first.
fn demands_other(cube: &Cube, place: u32, v: u32, value: u32) -> bool
    ensures { IsTrue result ↔ DemandsOther cube.now (v, value) }
{
    // Read for its contract, which says that the variables rise.
    let _len = cube.len();
    match demanded(cube, place, v) {
        Some(wanted) => value != wanted,
        None => false,
    }
}

// Whether the second cube demands another value of some variable of the first.
fn differ(cube: &Cube, other: &Cube) -> bool
    ensures { IsTrue result ↔ Exclude cube.now other.now }
{
    for i in 0..cube.len() {
        let (v, value) = cube.pair(i);
        if demands_other(other, i, v, value) {
            return true;
        }
    }
    false
}

/// Whether two cubes demand different values of a variable that they share. The pairs of the
/// shorter cube are looked up in the longer, up to the first at which they differ.
pub fn exclude(cube: &Cube, other: &Cube) -> bool
    ensures { IsTrue result ↔ Exclude cube.now other.now }
{
    if cube.len() <= other.len() {
        differ(cube, other)
    } else {
        differ(other, cube)
    }
}
