ghost use Rattle.std.specs.Prelude.{◌≡◌, ◌<◌, ◌^◌, length, map, IfOk, None};
ghost use Rattle.dimacs_read.specs.Cnf.{first_empty};
ghost use Rattle.pop_instance.specs.Events.{FitVariables};
ghost use Rattle.dimacs_read.specs.Falsifying.{AreEventsOf, IsCubeOf, falsifier};

use crate::Formula;
use pop_instance::{Cube, Events};
use std::alloc::{AllocError, Global};

impl Formula {
    /// The events of the formula, each under the number of its clause, from 1. The cube of a
    /// clause has each variable of the clause with the value that falsifies its literal. This is 0
    /// for a variable and 1 for a negated one. Variable x of the input is variable x - 1 of the
    /// cube.
    ///
    /// A repeated literal counts once. A clause with a variable and its negation gives no event.
    /// Of equal cubes the first is kept. No clause may be empty.
    pub fn events(&self, alloc: Global) -> Result<Events, AllocError>
        requires { first_empty self.now ≡ None }
        ensures events { IfOk result (λ events. AreEventsOf self.now.clauses events) }
        ensures fit { IfOk result (λ events. FitVariables self.now.variables events) }
    {
        // Read for its contract, which bounds the literals by the number of variables.
        let _variables = self.variables();
        let mut rows = Vec::with_capacity(alloc, self.clauses() as usize)?;
        for i in 0..self.clauses() {
            if let Some(cube) = cube_of(alloc, self.clause(i))? {
                rows.push((i + 1, cube))?;
            }
        }
        Events::gather(alloc, rows)
    }
}

// The variable, from 0, and the value for which the literal is false.
fn falsifier_of(literal: i32) -> (u32, u32)
    ensures { result ≡ falsifier literal }
{
    let variable = literal.unsigned_abs().saturating_sub(1);
    if literal < 0 {
        return (variable, 1);
    }
    (variable, 0)
}

// The falsifying pairs of the literals, in a list without spare capacity.
fn pairs_of(alloc: Global, literals: &[i32]) -> Result<Vec<(u32, u32)>, AllocError>
    ensures { IfOk result (λ pairs. pairs.items ≡ map falsifier literals.now) }
{
    let mut pairs = Vec::with_capacity(alloc, literals.len())?;
    for literal in literals {
        pairs.push(falsifier_of(*literal))?;
    }
    Ok(pairs)
}

// The cube of a clause, if it has one. After equal pairs are dropped, the variables rise unless
// one of them has both values.
fn cube_of(alloc: Global, literals: &[i32]) -> Result<Option<Cube>, AllocError>
    requires { length literals.now < 2 ^ 31 }
    ensures { IfOk result (IsCubeOf literals.now) }
{
    let mut pairs = pairs_of(alloc, literals)?;
    pairs.sort_unstable();
    pairs.dedup();
    match Cube::new(pairs) {
        None => Ok(None),
        Some(cube) => {
            // Read for its contract, which says that the variables of a cube rise.
            let _count = cube.len();
            Ok(Some(cube))
        }
    }
}
