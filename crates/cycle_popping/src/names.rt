//! The variables of vertices.
ghost use Rattle.std.specs.Prelude.{◌≡◌, ◌≤◌};
ghost use Rattle.cycle_popping.specs.Trees.{variable_of as variable_in};

// The variable of a vertex, or None for the root.
pub(crate) fn variable_of(root: u32, vertex: u32) -> Option<u32>
    requires root { 1 ≤ root }
    requires vertex { 1 ≤ vertex }
    ensures { result ≡ variable_in root vertex }
{
    if vertex == root {
        None
    } else if vertex < root {
        Some(vertex - 1)
    } else {
        Some(vertex - 2)
    }
}
