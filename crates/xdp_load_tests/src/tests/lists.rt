//! Settings whose maps have lists of keys, and wider limits. What Linux 6.18 does with the same keys by bpf(2) stands beside them.
use crate::loading::{
    constant_at, counts, found_row, gives_listed_maps, has_parts, is_listed_refused_at,
    is_refused_at, listed_counts, lists_given,
};
use crate::tests::EVERY_KEY;
use std::test::Fail;
use xdp_load::{Fault, Key, Spot};

/// Two addresses, and the prefixes of the example in Linux's kernel/bpf/lpm_trie.c.
const LISTS: &str = "\
program = []
[[map]]
name = \"blocked\"
entries = 2
key = \"exact\"
rows = [\"c0000201\", \"C6336407\"]
[[map]]
name = \"networks\"
entries = 8
counters = 2
key = \"prefix\"
rows = [\"10000000c0a80000\", \"18000000c0a80000\", \"18000000c0a88000\", \"18000000c0a80100\"]
[[map]]
name = \"totals\"
entries = 1
";

#[test]
fn rows_are_found_in_the_order_of_the_text(rt: HostRuntime) {
    let alloc = rt.alloc();
    for (number, key, row) in [
        (0, "c0000201", Some(0)),
        (0, "c6336407", Some(1)),
        (0, "c0000202", None),
        (1, "20000000c0a80101", Some(3)),
        (1, "20000000c0a80001", Some(1)),
        (1, "20000000c0a8ff01", Some(0)),
        (1, "20000000c0a98001", None),
        (2, "00000000", None),
    ] {
        assert_eq!(rt; found_row(alloc, LISTS, number, key), row);
    }
    assert_eq!(rt; lists_given(alloc, LISTS), Some(2));
    let maps = [("blocked", 2, 1), ("networks", 8, 2), ("totals", 1, 1)];
    assert!(rt; gives_listed_maps(alloc, LISTS, &maps));
}

/// A map of an IPv6 address, and one of a MAC address, with no rows.
#[test]
fn keys_have_other_sizes(rt: HostRuntime) {
    let alloc = rt.alloc();
    let text = "\
program = []
map = [
  { name = \"six\", entries = 1, key = \"exact\", size = 16, rows = [\"20010db8000000000000000000000001\"] },
  { name = \"macs\", entries = 9, key = \"exact\", size = 6 },
  { name = \"all\", entries = 1, key = \"prefix\", size = 1, rows = [\"0000000000\"] },
]
";
    assert_eq!(rt;
        found_row(alloc, text, 0, "20010db8000000000000000000000001"),
        Some(0)
    );
    assert_eq!(rt; found_row(alloc, text, 1, "020000000001"), None);
    assert_eq!(rt; found_row(alloc, text, 2, "08000000ff"), Some(0));
}

/// Linux too takes no two hash entries of one key that may not be there (EEXIST), no entry past the last (E2BIG), and no prefix
/// longer than its data (EINVAL). It takes bits beyond a prefix, which it ignores.
#[test]
fn rows_that_no_map_can_have_are_refused(rt: HostRuntime) {
    let alloc = rt.alloc();
    for (rows, fault) in [
        (
            "entries = 2, key = \"exact\", rows = [\"61626364\", \"61626364\"]",
            Fault::Rows,
        ),
        (
            "entries = 1, key = \"exact\", rows = [\"61626364\", \"61626365\"]",
            Fault::Limit,
        ),
        (
            "entries = 1, key = \"prefix\", rows = [\"210000000a000000\"]",
            Fault::Rows,
        ),
        (
            "entries = 1, key = \"prefix\", rows = [\"080000000a000001\"]",
            Fault::Rows,
        ),
        (
            "entries = 1, key = \"exact\", rows = [\"616263\"]",
            Fault::Limit,
        ),
        (
            "entries = 1, key = \"exact\", rows = [\"6162636465\"]",
            Fault::Limit,
        ),
        (
            "entries = 1, key = \"exact\", rows = [\"616263646\"]",
            Fault::Hex,
        ),
        (
            "entries = 1, key = \"exact\", rows = [\"6162636g\"]",
            Fault::Hex,
        ),
        ("entries = 1, rows = [\"00000000\"]", Fault::Limit),
        ("entries = 1, rows = \"00000000\"", Fault::Key),
        ("entries = 1, rows = [0]", Fault::Key),
    ] {
        let text = format!(in alloc; "program = []\nmap = [{{ name = \"a\", {rows} }}]\n");
        let is_refused = text.is_ok_and(|text| is_listed_refused_at(
            alloc,
            text.as_str(),
            fault,
            &Spot::Row(Key::Rows, 0),
        ));
        assert!(rt; is_refused);
    }
}

#[test]
fn faults_come_in_their_order(rt: HostRuntime) {
    for (text, fault, spot) in [
        (
            "program = []\nwide = 1\nmap = [{name = \"a\", entries = 1, key = 1}]",
            Fault::Key,
            Spot::Row(Key::KeyKind, 0),
        ),
        ("program = []\nwide = 1", Fault::Key, Spot::At(Key::Wide)),
        (
            "program = []\nmap = [{name = \"a\", entries = 1, key = \"hash\", size = 65}]",
            Fault::Limit,
            Spot::Row(Key::KeyKind, 0),
        ),
        (
            "program = []\nmap = [{name = \"a\", entries = 1, key = \"exact\", size = 65, rows = [\"\"]}]",
            Fault::Limit,
            Spot::Row(Key::KeySize, 0),
        ),
        (
            "program = []\nmap = [{name = \"a\", entries = 1, size = 8}]",
            Fault::Limit,
            Spot::Row(Key::KeySize, 0),
        ),
        (
            "program = [\"0\"]\nmap = [{name = \"a\", entries = 1, key = \"exact\", size = 1, rows = [\"0g\"]}]",
            Fault::Hex,
            Spot::Row(Key::Program, 0),
        ),
        (
            "program = []\nreloc = [{slot = 0, map = \"a\"}]\nmap = [{name = \"a\", entries = 1, key = \"exact\", size = 1, rows = [\"0g\"]}]",
            Fault::Hex,
            Spot::Row(Key::Rows, 0),
        ),
        (
            "program = []\nreloc = [{slot = 0, map = \"a\"}]\nmap = [{name = \"a\", entries = 2, key = \"exact\", size = 1, rows = [\"01\", \"01\"]}]",
            Fault::Relocation,
            Spot::Row(Key::Slot, 0),
        ),
        (
            "program = []\nmap = [{name = \"a\", entries = 2, key = \"exact\", size = 1, rows = [\"01\"]}, {name = \"b\", entries = 2, key = \"exact\", size = 1, rows = [\"01\", \"01\"]}]",
            Fault::Rows,
            Spot::Row(Key::Rows, 1),
        ),
    ] {
        assert!(rt; is_listed_refused_at(rt.alloc(), text, fault, &spot));
    }
}

/// A map of three constants after an array.
const CONSTANTS: &str = "\
program = []
[[map]]
name = \"totals\"
entries = 1
[[map]]
name = \".rodata\"
entries = 1
key = \"constants\"
size = 3
rows = [\"0180Ff\"]
";

#[test]
fn constants_are_one_row(rt: HostRuntime) {
    let alloc = rt.alloc();
    for (number, place, byte) in [
        (0, 0, None),
        (1, 0, Some(0x01)),
        (1, 1, Some(0x80)),
        (1, 2, Some(0xff)),
        (1, 3, None),
    ] {
        assert_eq!(rt; constant_at(alloc, CONSTANTS, number, place), byte);
    }
    assert_eq!(rt; lists_given(alloc, CONSTANTS), Some(1));
    for (text, spot) in [
        (
            "program = []\nmap = [{name = \"a\", entries = 1, key = \"constants\", size = 0, rows = [\"\"]}]",
            Spot::Row(Key::ConstantSize, 0),
        ),
        (
            "program = []\nmap = [{name = \"a\", entries = 1, key = \"constants\", size = 65537, rows = [\"00\"]}]",
            Spot::Row(Key::ConstantSize, 0),
        ),
        (
            "program = []\nmap = [{name = \"a\", entries = 1, key = \"constants\", size = 2, rows = [\"000102\"]}]",
            Spot::Row(Key::Rows, 0),
        ),
        (
            "program = []\nmap = [{name = \"a\", entries = 2, key = \"constants\", size = 1, rows = [\"00\", \"01\"]}]",
            Spot::Row(Key::Rows, 0),
        ),
        (
            "program = []\nmap = [{name = \"a\", entries = 1, key = \"constants\", size = 1}]",
            Spot::Row(Key::Rows, 0),
        ),
    ] {
        assert!(rt; is_listed_refused_at(alloc, text, Fault::Limit, &spot));
    }
}

#[test]
fn parts_of_counters_are_asked_for(rt: HostRuntime) {
    let alloc = rt.alloc();
    let text = "\
program = []
map = [
  { name = \"whole\", entries = 1 },
  { name = \"also\", entries = 1, parts = false },
  { name = \"array\", entries = 2, counters = 2, parts = true },
  { name = \"macs\", entries = 9, key = \"exact\", size = 6, parts = true },
]
";
    for (number, parts) in [(0, false), (1, false), (2, true), (3, true)] {
        assert_eq!(rt; has_parts(alloc, text, number), Some(parts));
    }
    assert_eq!(rt; has_parts(alloc, text, 4), None);
    for value in ["1", "\"true\""] {
        let text = format!(in alloc;
            "program = []\nmap = [{{ name = \"a\", entries = 1, parts = {value} }}]\n"
        );
        let is_refused = text.is_ok_and(|text| is_listed_refused_at(
            alloc,
            text.as_str(),
            Fault::Key,
            &Spot::Row(Key::Parts, 0),
        ));
        assert!(rt; is_refused);
    }
}

#[test]
fn wider_limits_are_asked_for(rt: HostRuntime) {
    let alloc = rt.alloc();
    let large = "program = []\nwide = true\nmap = [{name = \"a\", entries = 65536}]";
    assert!(rt; gives_listed_maps(alloc, large, &[("a", 65_536, 1)]));
    for (text, spot) in [
        (
            "program = []\nwide = true\nmap = [{name = \"a\", entries = 65537}]",
            Spot::Row(Key::WideEntries, 0),
        ),
        (
            "program = []\nwide = false\nmap = [{name = \"a\", entries = 1025}]",
            Spot::Row(Key::Entries, 0),
        ),
        (
            "program = []\nmap = [{name = \"a\", entries = 1025, key = \"exact\"}]",
            Spot::Row(Key::Entries, 0),
        ),
    ] {
        assert!(rt; is_listed_refused_at(alloc, text, Fault::Limit, &spot));
    }
    assert!(rt; is_refused_at(alloc, LISTS, Fault::Key, &Spot::Row(Key::Map, 0)));
}

/// Sixteen maps, of which the list is not yet closed.
const SIXTEEN: &str = "\
map = [{name = \"0\", entries = 1}, {name = \"1\", entries = 1}, {name = \"2\", entries = 1}, {name = \"3\", entries = 1}, \
{name = \"4\", entries = 1}, {name = \"5\", entries = 1}, {name = \"6\", entries = 1}, {name = \"7\", entries = 1}, \
{name = \"8\", entries = 1}, {name = \"9\", entries = 1}, {name = \"10\", entries = 1}, {name = \"11\", entries = 1}, \
{name = \"12\", entries = 1}, {name = \"13\", entries = 1}, {name = \"14\", entries = 1}, {name = \"15\", entries = 1}";

#[test]
fn sixteen_maps_are_the_most(rt: HostRuntime) -> Result<(), Fail> {
    let alloc = rt.alloc();
    let most = format!(in alloc; "program = []\nwide = true\n{SIXTEEN}]\n")?;
    assert_eq!(rt;
        listed_counts(alloc, most.as_str()),
        Ok(([0, 16, 16, 0, 0], 1, 0, 0))
    );
    let more = format!(in alloc;
        "program = []\nwide = true\n{SIXTEEN}, {{name = \"16\", entries = 1}}]\n"
    )?;
    assert!(rt; is_listed_refused_at(alloc, more.as_str(), Fault::Limit, &Spot::At(Key::WideMap)));
    let narrow = format!(in alloc; "program = []\n{SIXTEEN}]\n")?;
    assert!(rt; is_listed_refused_at(alloc, narrow.as_str(), Fault::Limit, &Spot::At(Key::Map)));
    Ok(())
}

/// A law says it of all texts without these keys.
#[test]
fn other_settings_are_read_as_ever(rt: HostRuntime) {
    let alloc = rt.alloc();
    for text in [
        EVERY_KEY,
        "program = []",
        "program = 1",
        "program = []\nmap = [{name = \"a\", entries = 1025}]",
        "program = []\nmap = [{name = \"a\", entries = 1, keys = 1}]",
        "program = []\nmap = 1",
        "program = []\ncolour = 1",
        "program = [",
    ] {
        assert_eq!(rt; listed_counts(alloc, text), counts(alloc, text));
    }
    assert_eq!(rt; lists_given(alloc, EVERY_KEY), Some(0));
}
