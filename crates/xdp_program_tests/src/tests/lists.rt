//! Programs whose maps have lists, and lists that are replaced.
use crate::loading::{End, relisted_ended, settings_ended};
use std::alloc::Global;
use xdp_program::{Fault, RelistFault, TextFault};

/// Counts each packet under the key `01 00 00 00`, and passes it.
const COUNTS: &str = "\
program = [
  \"620afcff01000000\",
  \"bfa2000000000000\",
  \"07020000fcffffff\",
  \"18010000000000000000000000000000\",
  \"8500000001000000\",
  \"1500020000000000\",
  \"b701000001000000\",
  \"db10000000000000\",
  \"b700000002000000\",
  \"9500000000000000\",
]
[[reloc]]
slot = 3
map = \"hits\"
[[map]]
name = \"hits\"
entries = 2
key = \"exact\"
rows = ";

/// Counts each packet under 10.1.2.3, and passes it.
const COUNTS_ADDRESS: &str = "\
program = [
  \"620af8ff20000000\",
  \"620afcff0a010203\",
  \"bfa2000000000000\",
  \"07020000f8ffffff\",
  \"18010000000000000000000000000000\",
  \"8500000001000000\",
  \"1500020000000000\",
  \"b701000001000000\",
  \"db10000000000000\",
  \"b700000002000000\",
  \"9500000000000000\",
]
[[reloc]]
slot = 4
map = \"hits\"
[[map]]
name = \"hits\"
entries = 2
key = \"prefix\"
rows = ";

/// Settings with these rows.
fn with_rows(alloc: Global, settings: &str, rows: &str) -> Option<String> {
    format!(in alloc; "{settings}{rows}\n").ok()
}

/// A run of settings with these rows, and what it leaves in both counters.
fn counted(alloc: Global, settings: &str, rows: &str) -> Option<(End, [u64; 2])> {
    let text = with_rows(alloc, settings, rows)?;
    let mut counters = [5, 7];
    let end = settings_ended(alloc, text.as_str(), &mut counters)?;
    Some((end, counters))
}

/// Rows of keys of four bytes, and what a run with them leaves.
const EXACT: [(&str, (End, [u64; 2])); 4] = [
    ("[\"01000000\"]", ((2, 10), [6, 7])),
    ("[\"02000000\", \"01000000\"]", ((2, 10), [5, 8])),
    ("[\"02000000\", \"01000001\"]", ((2, 8), [5, 7])),
    ("[]", ((2, 8), [5, 7])),
];

#[test]
fn a_run_finds_the_row_of_a_key(rt: HostRuntime) {
    for (rows, left) in EXACT {
        let found = counted(rt.alloc(), COUNTS, rows);
        assert_eq!(rt; found, Some(left), "{rows}");
    }
}

/// Rows of prefixes of addresses, and what a run with them leaves.
const PREFIXES: [(&str, (End, [u64; 2])); 4] = [
    (
        "[\"080000000a000000\", \"100000000a010000\"]",
        ((2, 11), [5, 8]),
    ),
    (
        "[\"100000000a010000\", \"080000000a000000\"]",
        ((2, 11), [6, 7]),
    ),
    (
        "[\"0000000000000000\", \"200000000a010204\"]",
        ((2, 11), [6, 7]),
    ),
    (
        "[\"100000000a020000\", \"080000000b000000\"]",
        ((2, 9), [5, 7]),
    ),
];

#[test]
fn a_run_finds_the_longest_prefix(rt: HostRuntime) {
    for (rows, left) in PREFIXES {
        let found = counted(rt.alloc(), COUNTS_ADDRESS, rows);
        assert_eq!(rt; found, Some(left), "{rows}");
    }
}

/// A run of [`COUNTS`] without rows, with the lists of settings with these rows.
fn relisted(
    alloc: Global,
    other: &str,
    rows: &str,
) -> Option<(Result<End, RelistFault>, [u64; 2])> {
    let text = with_rows(alloc, COUNTS, "[]")?;
    let other = with_rows(alloc, other, rows)?;
    let mut counters = [5, 7];
    let end = relisted_ended(alloc, text.as_str(), other.as_str(), &mut counters)?;
    Some((end, counters))
}

#[test]
fn a_run_has_the_lists_of_other_settings(rt: HostRuntime) {
    let found = relisted(rt.alloc(), COUNTS, "[\"02000000\", \"01000000\"]");
    assert_eq!(rt; found, Some((Ok((2, 10)), [5, 8])));
}

#[test]
fn another_program_has_no_lists_for_it(rt: HostRuntime) {
    let found = relisted(rt.alloc(), COUNTS_ADDRESS, "[]");
    assert_eq!(rt; found, Some((Err(RelistFault::Other), [5, 7])));
}

/// Keys with another number of counters a value.
const OTHER_MAPS: &str = "[\"01000000\"]\ncounters = 2";

#[test]
fn other_maps_have_no_lists_for_it(rt: HostRuntime) {
    let found = relisted(rt.alloc(), COUNTS, OTHER_MAPS);
    assert_eq!(rt; found, Some((Err(RelistFault::Other), [5, 7])));
}

/// Keys whose counters may be loaded in parts.
const WITH_PARTS: &str = "[\"01000000\"]\nparts = true";

#[test]
fn a_map_with_parts_is_another_one(rt: HostRuntime) {
    let found = relisted(rt.alloc(), COUNTS, WITH_PARTS);
    assert_eq!(rt; found, Some((Err(RelistFault::Other), [5, 7])));
}

#[test]
fn settings_with_a_fault_have_no_lists(rt: HostRuntime) {
    let found = relisted(rt.alloc(), COUNTS, "[\"01000000\", \"01000000\"]");
    let fault = RelistFault::Text(TextFault::Refused(Fault::Rows));
    assert_eq!(rt; found, Some((Err(fault), [5, 7])));
}

/// Answers with byte 2 of its one counter.
const LOADS_A_BYTE: &str = "\
program = [
  \"620afcff00000000\",
  \"bfa2000000000000\",
  \"07020000fcffffff\",
  \"18010000000000000000000000000000\",
  \"8500000001000000\",
  \"1500010000000000\",
  \"7100020000000000\",
  \"9500000000000000\",
]
[[reloc]]
slot = 3
map = \"hits\"
[[map]]
name = \"hits\"
entries = 1
parts = true
";

#[test]
fn a_run_loads_a_part_of_a_counter(rt: HostRuntime) {
    let mut counters = [0x0807_0605_0403_0201];
    let end = settings_ended(rt.alloc(), LOADS_A_BYTE, &mut counters);
    assert_eq!(rt; end, Some((3, 8)));
    assert_eq!(rt; counters, [0x0807_0605_0403_0201]);
}
