//! Settings that have the program too of which theirs was made.
use crate::loading::{gives_original, is_beside_refused_at, lists_beside_original};
use xdp_load::{Fault, Key, Part, Spot};

#[test]
fn reads_the_original_and_its_places(rt: HostRuntime) {
    let text = "\
program = [\"b7000000020000009500000000000000\"]
map = [{ name = \"a\", entries = 1 }, { name = \"b\", entries = 1 }]
[original]
program = [\"1801000000000000\", \"0000000000000000\"]
places = [[0, false], [4294967295, true]]
[[original.reloc]]
slot = 0
map = \"b\"
";
    let program = "b7000000020000009500000000000000";
    let original = "18110000010000000000000000000000";
    let places = [(0, false), (4_294_967_295, true)];
    assert!(rt; gives_original(rt.alloc(), text, program, original, &places));
}

#[test]
fn faults_of_the_original_have_their_spots(rt: HostRuntime) {
    for (text, fault, spot) in [
        (
            "[original]\nprogram = 1",
            Fault::Key,
            Spot::At(Key::Program),
        ),
        (
            "[original]\nprogram = []\nplaces = [[0, 0]]",
            Fault::Key,
            Spot::Row(Key::Place, 0),
        ),
        (
            "program = []\nqueues = 9\n[original]\nprogram = []\nplaces = [[0, true], [-1, true]]",
            Fault::Limit,
            Spot::Row(Key::Place, 1),
        ),
        (
            "program = []\n[original]\nprogram = [\"0\"]",
            Fault::Hex,
            Spot::Row(Key::Program, 0),
        ),
        (
            "program = []\n[original]\nprogram = []\nreloc = [{ slot = 0, map = \"a\" }]",
            Fault::Relocation,
            Spot::Row(Key::Slot, 0),
        ),
    ] {
        assert!(rt; is_beside_refused_at(rt.alloc(), text, fault, Part::Original, &spot));
    }
}

/// What the settings' own keys have wrong is theirs, and a missing original too.
#[test]
fn faults_of_the_settings_are_their_own(rt: HostRuntime) {
    for (text, fault, spot) in [
        ("program = []", Fault::Key, Spot::At(Key::Original)),
        (
            "original = { colour = 1 }",
            Fault::Key,
            Spot::At(Key::Original),
        ),
        (
            "program = 1\n[original]\nprogram = []",
            Fault::Key,
            Spot::At(Key::Program),
        ),
        (
            "program = [\"0\"]\n[original]\nprogram = [\"0\"]",
            Fault::Hex,
            Spot::Row(Key::Program, 0),
        ),
    ] {
        assert!(rt; is_beside_refused_at(rt.alloc(), text, fault, Part::Settings, &spot));
    }
}

/// Lists, constants and wider limits, as without an original; the rows of lists are looked at after the original.
#[test]
fn reads_lists_beside_the_original(rt: HostRuntime) {
    let text = "\
program = [\"b7000000020000009500000000000000\"]
wide = true
map = [
  { name = \"a\", entries = 2000 },
  { name = \"b\", entries = 2, key = \"exact\", rows = [\"0a010203\"] },
  { name = \".rodata\", entries = 1, key = \"constants\", size = 3, rows = [\"010203\"] },
]
[original]
program = [\"b7000000020000009500000000000000\"]
";
    assert!(rt; lists_beside_original(rt.alloc(), text) == Some(2));
}

#[test]
fn rows_of_lists_are_looked_at_after_the_original(rt: HostRuntime) {
    let twice = "\
program = []
map = [{ name = \"a\", entries = 2, key = \"exact\", rows = [\"0a010203\", \"0a010203\"] }]
[original]
program = []
";
    let spot = Spot::Row(Key::Rows, 0);
    assert!(rt; is_beside_refused_at(rt.alloc(), twice, Fault::Rows, Part::Settings, &spot));
    let both = "\
program = []
map = [{ name = \"a\", entries = 2, key = \"exact\", rows = [\"0a010203\", \"0a010203\"] }]
[original]
program = [\"0\"]
";
    let spot = Spot::Row(Key::Program, 0);
    assert!(rt; is_beside_refused_at(rt.alloc(), both, Fault::Hex, Part::Original, &spot));
}
