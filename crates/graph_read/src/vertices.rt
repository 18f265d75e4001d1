ghost use Rattle.std.specs.Prelude.{◌≡◌, ◌<◌, ◌^◌};
ghost use Rattle.pop_model.specs.Names.{vertex_of as vertex_named};

/// The vertex of variable v of a tree with this root. The variables are the vertices without the
/// root, rising. Variables count from 0, vertices from 1.
pub fn vertex_of(root: u32, v: u32) -> u32
    requires { v < 2 ^ 31 }
    ensures { result ≡ vertex_named root v }
{
    if v + 1 < root { v + 1 } else { v + 2 }
}
