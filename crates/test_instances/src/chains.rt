ghost use Rattle.std.specs.Prelude.{◌<◌};

use crate::events::{cube, family};
use pop_instance::{Cube, Family};
use std::alloc::Global;
use std::test::Fail;

// The event that variables 2i and 2i + 1 have the value 0 and variable 2i + 2 has the value 1.
fn link(alloc: Global, i: u32) -> Result<Cube, Fail>
    requires { i < 1000 }
{
    cube(alloc, &[(2 * i, 0), (2 * i + 1, 0), (2 * i + 2, 1)])
}

/// The family of this many events, fewer than 1000. Event i demands 0 of variables 2i and 2i + 1,
/// and 1 of variable 2i + 2. So it shares its last variable with the next event, which demands
/// another value of it.
pub fn chain(alloc: Global, links: u32) -> Result<Family, Fail> {
    if links >= 1000 {
        return Err(Fail::new("too many links"));
    }
    let mut rows = Vec::new(alloc);
    for i in 0..links {
        rows.push((i + 1, link(alloc, i)?))?;
    }
    family(alloc, rows)
}
