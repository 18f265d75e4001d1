//! The names of an instance's variables in logs and witness trees.
ghost use Rattle.std.specs.Prelude.{◌≡◌};
ghost use Rattle.told_runs.specs.Names.{names_for};

use pop_instance::Instance;
use pop_log::Names;
use pop_print::Facts;

/// An instance, and the printed names of its variables.
#[derive(Drop)]
pub struct Named<'a> {
    pub instance: &'a Instance,
    pub names: &'a Names,
}

/// The names of the variables, by what the input says.
pub fn names_of(facts: &Facts) -> Names
    ensures { result ≡ names_for facts.now }
{
    match facts {
        Facts::Formula(_) | Facts::Orient(_) => Names::Plain,
        Facts::Tree(_, root) => Names::Tree(*root),
        Facts::Made(_) => Names::Tree(1),
    }
}
