// Texts of logs and the results of reading them, worked by hand: the records that are read, or why
// the text is rejected.

// Logs of the formula. The values at the cursors are 0 0 0, then 1 1 0, 1 1 0 and 1 1 1.
pub static FORMULA: [(&str, &str); 64] = [
    (
        "log 1 3\npop 1 1:0 2:0\npop 2 1:1 3:0\npop 4 3:1\n",
        "0: 0=0@0 1=0@0;1: 0=1@1 2=0@0;2: 2=0@1;",
    ),
    ("log 1 0\n", ""),
    ("log 1 1\npop 4 3:0\n", "2: 2=0@0;"),
    // The first line.
    ("", "malformed 1"),
    ("\n", "malformed 1"),
    ("log 1 0", "malformed 1"),
    ("log 0 0\n", "malformed 1"),
    ("log 3 0\n", "malformed 1"),
    ("log 1 00\n", "malformed 1"),
    ("log 1 \n", "malformed 1"),
    ("log 1 0 \n", "malformed 1"),
    ("log 1  0\n", "malformed 1"),
    ("log 1 0\r\n", "malformed 1"),
    (" log 1 0\n", "malformed 1"),
    ("log 1 -0\n", "malformed 1"),
    ("log 1 +1\npop 4 3:0\n", "malformed 1"),
    ("log 1 18446744073709551616\n", "malformed 1"),
    ("pop 4 3:0\n", "malformed 1"),
    // Lines that are missing or too many.
    ("log 1 18446744073709551615\n", "malformed 2"),
    ("log 1 1\n", "malformed 2"),
    ("log 1 2\npop 4 3:0\n", "malformed 3"),
    ("log 1 0\npop 4 3:0\n", "malformed 2"),
    ("log 1 0\n\n", "malformed 2"),
    ("log 1 1\npop 4 3:0\npop 4 3:1\n", "malformed 3"),
    ("log 1 1\npop 4 3:0\nx", "malformed 3"),
    ("log 1 1\npop 4 3:0", "malformed 2"),
    ("log 1 1\n\npop 4 3:0\n", "malformed 2"),
    // The form of a record's line.
    ("log 1 1\nPop 4 3:0\n", "malformed 2"),
    ("log 1 1\npop  4 3:0\n", "malformed 2"),
    ("log 1 1\npop 4  3:0\n", "malformed 2"),
    ("log 1 1\npop 4 3:0 \n", "malformed 2"),
    ("log 1 1\npop 4 3:0\r\n", "malformed 2"),
    ("log 1 1\npop 4 3=0\n", "malformed 2"),
    ("log 1 1\npop 4 3:\n", "malformed 2"),
    ("log 1 1\npop 4 3\n", "malformed 2"),
    ("log 1 1\npop 4 3:-0\n", "malformed 2"),
    ("log 1 1\npop 04 3:0\n", "malformed 2"),
    ("log 1 1\npop 4 03:0\n", "malformed 2"),
    ("log 1 1\npop 4 3:00\n", "malformed 2"),
    ("log 1 1\npop 18446744073709551620 3:0\n", "malformed 2"),
    ("log 1 1\npop 4 4294967299:0\n", "malformed 2"),
    ("log 1 1\npop 4 3:4294967296\n", "malformed 2"),
    ("log 1 1\npop 4 3:18446744073709551616\n", "malformed 2"),
    ("log 1 1\npop 4\t3:0\n", "malformed 2"),
    // Events and their variables.
    ("log 1 1\npop 0 1:0 2:0\n", "malformed 2"),
    ("log 1 1\npop 3 1:0 2:0\n", "malformed 2"),
    ("log 1 1\npop 5 3:0\n", "malformed 2"),
    ("log 1 1\npop 1 2:0 1:0\n", "malformed 2"),
    ("log 1 1\npop 1 1:0\n", "malformed 2"),
    ("log 1 1\npop 1\n", "malformed 2"),
    ("log 1 1\npop 1 1:0 1:0\n", "malformed 2"),
    ("log 1 1\npop 1 1:0 3:0\n", "malformed 2"),
    ("log 1 1\npop 1 1:0 2:0 3:0\n", "malformed 2"),
    // Records that are not legal.
    ("log 1 1\npop 4 3:4294967295\n", "not legal 0"),
    ("log 1 1\npop 4 3:1\n", "not legal 0"),
    ("log 1 1\npop 2 1:0 3:0\n", "not legal 0"),
    ("log 1 2\npop 4 3:0\npop 4 3:0\n", "not legal 1"),
    ("log 1 2\npop 4 3:0\npop 4 3:2\n", "not legal 1"),
    ("log 1 3\npop 4 3:0\npop 4 3:1\npop 4 3:2\n", "not legal 2"),
    (
        "log 1 3\npop 1 1:0 2:0\npop 2 1:1 3:0\npop 2 1:2 3:1\n",
        "not legal 2",
    ),
    (
        "log 1 3\npop 2 1:0 3:0\npop 4 3:0\npop 4 3:0\n",
        "not legal 0",
    ),
    // An invalid line after a record that is not legal.
    ("log 1 2\npop 4 3:1\npop 4 3:x\n", "malformed 3"),
    ("log 1 2\npop 4 3:1\n", "malformed 3"),
    ("log 1 1\npop 4 3:1\npop 4 3:0\n", "malformed 3"),
];

// Logs of the clause `1`, in both versions. The variable has the entries 0, 0 and 1.
pub static ONE_CLAUSE: [(&str, &str); 3] = [
    ("log 1 2\npop 1 1:0\npop 1 1:1\n", "0: 0=0@0;0: 0=0@1;"),
    ("log 2 2\npop 1 1 1:0\npop 2 1 1:1\n", "0: 0=0@0;0: 0=0@1;"),
    ("log 2 2\npop 1 1 1:0\npop 1 1 1:1\n", "unlayered 1"),
];

// Logs in layers, of the clauses `1` and `2`. The values at the cursors are 0 0, then 0 1 and 1 1.
pub static LAYERED: [(&str, &str); 18] = [
    (
        "log 2 3\npop 1 1 1:0\npop 1 2 2:0\npop 2 1 1:1\n",
        "0: 0=0@0;1: 1=0@0;0: 0=0@1;",
    ),
    ("log 2 0\n", ""),
    // Layers that are not those of their records, and records out of order.
    ("log 2 1\npop 2 1 1:0\n", "unlayered 0"),
    ("log 2 2\npop 1 2 2:0\npop 1 1 1:0\n", "unlayered 1"),
    (
        "log 2 3\npop 1 1 1:0\npop 2 1 1:1\npop 1 2 2:0\n",
        "unlayered 2",
    ),
    ("log 2 1\npop 18446744073709551615 1 1:0\n", "unlayered 0"),
    // A record that is not legal after one in a wrong layer.
    ("log 2 2\npop 2 1 1:0\npop 1 1 1:0\n", "not legal 1"),
    ("log 2 1\npop 1 1 1:1\n", "not legal 0"),
    // The form of a line.
    ("log 2 1\npop 0 1 1:0\n", "malformed 2"),
    ("log 2 1\npop 01 1 1:0\n", "malformed 2"),
    ("log 2 1\npop 18446744073709551616 1 1:0\n", "malformed 2"),
    ("log 2 1\npop 1 1:0\n", "malformed 2"),
    ("log 2 1\npop 1  1 1:0\n", "malformed 2"),
    ("log 2 1\npop 1 1 1:0\n\n", "malformed 3"),
    ("log 2 2\npop 2 1 1:0\n", "malformed 3"),
    ("log 2 1\npop 1\n", "malformed 2"),
    ("log 1 1\npop 1 1 1:0\n", "malformed 2"),
    ("log 2 01\npop 1 1 1:0\n", "malformed 1"),
];

// Logs of the sinks. The values at the cursors are 1 0 0, then 0 0 1, 0 1 0 and 1 1 0.
pub static SINKS: [(&str, &str); 5] = [
    (
        "log 1 3\npop 1 1:0 3:0\npop 3 2:0 3:1\npop 2 1:1 2:1\n",
        "0: 0=1@0 2=0@0;2: 1=0@0 2=1@1;1: 0=0@1 1=1@1;",
    ),
    ("log 1 2\npop 1 1:0 3:0\npop 2 1:1 2:0\n", "not legal 1"),
    (
        "log 1 4\npop 1 1:0 3:0\npop 3 2:0 3:1\npop 2 1:1 2:1\npop 1 1:2 3:2\n",
        "not legal 3",
    ),
    ("log 1 1\npop 3 1:0 3:0\n", "malformed 2"),
    ("log 1 1\npop 4 1:0 3:0\n", "malformed 2"),
];

// Logs of the trees. Vertices 1 and 3 point to one another at their entries 0 and 1, and to vertex
// 2 at their entries 2.
pub static MIDDLE: [(&str, &str); 16] = [
    (
        "log 1 2\npop 1 1:0 3:0\npop 1 1:1 3:1\n",
        "0: 0=1@0 1=1@0;0: 0=1@1 1=1@1;",
    ),
    ("log 1 1\npop 3 1:0 3:0\n", "malformed 2"),
    ("log 1 1\npop 2 1:0 3:0\n", "malformed 2"),
    ("log 1 1\npop 1 3:0 1:0\n", "malformed 2"),
    ("log 1 1\npop 3 3:0 1:0\n", "malformed 2"),
    ("log 1 1\npop 1 1:0 2:0\n", "malformed 2"),
    ("log 1 1\npop 1 1:0 4:0\n", "malformed 2"),
    ("log 1 1\npop 0 0:0 1:0\n", "malformed 2"),
    ("log 1 1\npop 1 1:0 1:0\n", "malformed 2"),
    ("log 1 1\npop 1\n", "malformed 2"),
    ("log 1 1\npop 1 1:0 3:4294967296\n", "malformed 2"),
    ("log 1 1\npop 1 1:0 3:4294967295\n", "not legal 0"),
    ("log 1 1\npop 1 1:0\n", "not legal 0"),
    ("log 1 1\npop 3 3:0\n", "not legal 0"),
    ("log 1 2\npop 1 1:0 3:0\npop 1 1:0 3:0\n", "not legal 1"),
    (
        "log 1 3\npop 1 1:0 3:0\npop 1 1:1 3:1\npop 1 1:2 3:2\n",
        "not legal 2",
    ),
];

// Logs of the same trees, with the names of trees to vertex 1.
pub static FIRST: [(&str, &str); 2] = [
    ("log 1 1\npop 2 2:0 3:0\n", "0: 0=1@0 1=1@0;"),
    ("log 1 1\npop 1 1:0 3:0\n", "malformed 2"),
];

// Logs of the same trees, with the names of trees to vertex 3.
pub static LAST: [(&str, &str); 2] = [
    ("log 1 1\npop 1 1:0 2:0\n", "0: 0=1@0 1=1@0;"),
    ("log 1 1\npop 1 1:0 3:0\n", "malformed 2"),
];
