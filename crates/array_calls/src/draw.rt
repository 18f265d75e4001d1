/// Which samples are drawn into rows, and with how many pops or rounds.
#[derive(Clone, Copy)]
pub struct Draw<'a> {
    pub key: [u8; 32],
    /// The number of entries of each stack.
    pub height: u32,
    /// The number of the sample of row 0. Row j has the j-th sample after it.
    pub first: u32,
    /// The cursors from which the sample of row 0 continues, as a row of cursors that an earlier
    /// call left. If there are none, it starts before its first pop, as all other rows do.
    pub from: &'a [u32],
    /// The largest number of pops or rounds of all rows together; `u64::MAX` is no limit.
    pub budget: u64,
}
