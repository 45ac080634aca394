mod growth;
mod lists;
mod loads;
mod runs;

use crate::loading::Source;

/// Two instructions: PASS.
const PASS_DIGITS: &str = "b7000000020000009500000000000000";

/// The program without maps.
const PASS: Source = Source {
    digits: PASS_DIGITS,
    maps: &[],
};

/// The program with two maps of 2 and 6 counters.
const PASS_WITH_MAPS: Source = Source {
    digits: PASS_DIGITS,
    maps: &[(2, 1), (3, 2)],
};

/// Adds 3 to counter 1 of value 2 of map 1, and ends with what the counter holds then.
const ADDS_DIGITS: &str = "\
620afcff02000000\
bfa2000000000000\
07020000fcffffff\
1811000001000000\
0000000000000000\
8500000001000000\
1500030000000000\
b701000003000000\
db10080000000000\
7900080000000000\
9500000000000000";

/// [`ADDS_DIGITS`] with its maps.
const ADDS: Source = Source {
    digits: ADDS_DIGITS,
    maps: &[(2, 1), (3, 2)],
};

/// Writes the queue and the interface into the first two bytes of a packet of at least 14, and sends it back.
const NUMBERS: Source = Source {
    digits: "\
b700000003000000\
6112000000000000\
6113040000000000\
bf24000000000000\
070400000e000000\
2d34040000000000\
6115100000000000\
7352000000000000\
61150c0000000000\
7352010000000000\
9500000000000000",
    maps: &[],
};
