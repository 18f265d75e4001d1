use pop_instance::Cube;

/// The event of a unit of a listed family.
#[derive(Drop)]
pub(crate) struct ListedEvent<'e> {
    pub unit: u32,
    pub cube: &'e Cube,
}
