mod beginnings;
mod functions;
mod growth;
mod lists;
mod originals;
mod setups;
mod spots;
mod values;

/// Settings of forty lines, with every key.
const EVERY_KEY: &str = "\
# Two queues and two maps.
program = [
  \"180100000000000000000000\",
  \"00000000\",
  \"1801000000000000\",
  \"0000000000000000\",
  \"b7000000020000009500000000000000\",
]
queues = 2
ifindex = 7
start = 4294967295
script = [
  [0, 1],
  [1, 4294967295],
]

[[map]]
name = \"protocols\"
entries = 16

[[map]]
name = \"hits\"
entries = 1024
counters = 8

[[reloc]]
slot = 0
map = \"hits\"
[[reloc]]
slot = 2
map = \"protocols\"

[[packet]]
queue = 1
bytes = \"000102030405060708090A0b0c0d\"
times = 100000
[[packet]]
queue = 0
bytes = \"ffffffffffffffffffffffffffff00\"
# times = 1
";
