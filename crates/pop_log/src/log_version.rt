/// The version of a log as text.
#[derive(Clone, Copy)]
pub enum LogVersion {
    /// Version 1: the records in the order of a log.
    Ordered,
    /// Version 2: the records in the layered order, each with its layer.
    Layered,
}
