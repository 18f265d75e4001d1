// The largest allowed numbers of rows, and one more. Worked by hand.

/// The start of a line, what follows it how many times, the end of the line, and whether it is
/// rejected.
pub type Limit = (&'static str, &'static str, u32, &'static str, bool);

/// Rows at their limits: 2^22 rows, and 2^20 numbers, in one row and in as many rows.
pub static LIMITS: [Limit; 6] = [
    ("formula --stacks ", ";", 4194303, "", false),
    ("formula --stacks ", ";", 4194304, "", true),
    ("formula --stacks 0", ",0", 1048575, "", false),
    ("formula --stacks 0", ",0", 1048576, "", true),
    ("formula --stacks ", "1;", 1048576, "", false),
    ("formula --stacks ", "1;", 1048576, "1", true),
];
