ghost use Rattle.std.specs.Prelude.{◌≡◌, ◌↔◌, IsTrue};
ghost use Rattle.pop_model.specs.Cycles.{IsCycle, arrow_in};

use crate::{Arrows, Cube};

// The head of the slot that the cube demands of a variable. None if the head is the root, if the
// cube does not name the variable, or if there is no such slot.
fn arrow_in(arrows: &Arrows, cube: &Cube, v: u32) -> Option<u32>
    ensures { result ≡ arrow_in arrows.now cube.now v }
{
    let slot = cube.demand(v)?;
    if v < arrows.count() && slot < arrows.slots(v) {
        arrows.head(v, slot)
    } else {
        None
    }
}

/// Whether the cube is a cycle of the arrows. The arrows are followed from its first variable for
/// as many steps as it has pairs. They pass each of its variables exactly if they return to the
/// first at the last of these steps and not before.
pub fn is_cycle(arrows: &Arrows, cube: &Cube) -> bool
    ensures { IsTrue result ↔ IsCycle arrows.now cube.now }
{
    let count = cube.len();
    let (first, _) = cube.pair(0);
    let mut at = first;
    for _step in 1..count {
        match arrow_in(arrows, cube, at) {
            Some(head) if head != first => at = head,
            _ => return false,
        }
    }
    arrow_in(arrows, cube, at) == Some(first)
}
