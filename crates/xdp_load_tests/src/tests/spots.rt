//! Each fault has its first spot, wherever it stands in the text.
use crate::loading::is_refused_at;
use std::alloc::{AllocError, Global};
use std::test::Fail;
use xdp_load::{Fault, Key, Spot};

#[test]
fn keys_of_a_wrong_type_have_their_spots(rt: HostRuntime) {
    for (text, spot) in [
        ("queues = true", Spot::At(Key::Program)),
        (
            "start = true\nprogram = [0]\nqueues = true",
            Spot::Row(Key::Program, 0),
        ),
        ("map = 0\nstart = true\nprogram = []", Spot::At(Key::Start)),
        (
            "program = []\nmap = [{}, 1]\nreloc = 1",
            Spot::Row(Key::Name, 0),
        ),
        (
            "program = []\nmap = [{name = \"a\", entries = 1}, {name = \"b\"}]",
            Spot::Row(Key::Entries, 1),
        ),
        (
            "program = []\nreloc = [{slot = 0, map = \"a\", at = 1}]",
            Spot::Row(Key::Reloc, 0),
        ),
        (
            "program = []\nscript = [[0, 1], [0]]\npacket = 1",
            Spot::Row(Key::Step, 1),
        ),
        (
            "program = []\npacket = [{queue = 0, bytes = \"\", times = \"\"}]",
            Spot::Row(Key::Times, 0),
        ),
    ] {
        assert!(rt; is_refused_at(rt.alloc(), text, Fault::Key, &spot));
    }
}

#[test]
fn limits_have_their_spots(rt: HostRuntime) {
    for (text, spot) in [
        (
            "program = []\nmap = [{name = \"\", entries = 0}]\nqueues = 9",
            Spot::At(Key::Queues),
        ),
        (
            "program = []\nscript = [[1, 0]]\nstart = -1",
            Spot::At(Key::Start),
        ),
        (
            "program = []\nscript = [[0, 0], [1, -1]]",
            Spot::Row(Key::StepQueue, 1),
        ),
        (
            "program = []\npacket = [{queue = 0, bytes = \"\", times = 0}]",
            Spot::Row(Key::Bytes, 0),
        ),
        (
            "program = []\npacket = [{queue = 1, bytes = \"\"}]\nscript = [[0, -1]]",
            Spot::Row(Key::Answer, 0),
        ),
    ] {
        assert!(rt; is_refused_at(rt.alloc(), text, Fault::Limit, &spot));
    }
}

#[test]
fn names_hex_texts_and_relocations_have_their_spots(rt: HostRuntime) {
    for (text, fault, spot) in [
        (
            "program = [\"0\"]\nmap = [{name = \"a\", entries = 1}, {name = \"\", entries = 1}]",
            Fault::Name,
            Spot::Row(Key::Name, 1),
        ),
        (
            "program = [\"95\", \"0\"]",
            Fault::Hex,
            Spot::Row(Key::Program, 1),
        ),
        (
            "program = [\"1801000000000000\"]\nmap = [{name = \"a\", entries = 1}]\nreloc = [{slot = 0, map = \"b\"}, {slot = 0, map = \"a\"}]",
            Fault::Relocation,
            Spot::Row(Key::Slot, 0),
        ),
        (
            "program = [\"18010000000000001801000000000000\"]\nmap = [{name = \"a\", entries = 1}]\nreloc = [{slot = 1, map = \"a\"}, {slot = 0, map = \"b\"}]",
            Fault::Relocation,
            Spot::Row(Key::OfMap, 1),
        ),
    ] {
        assert!(rt; is_refused_at(rt.alloc(), text, fault, &spot));
    }
}

/// A key that settings don't have.
fn unknown(alloc: Global, name: &str) -> Result<Spot, AllocError> {
    Ok(Spot::Unknown(String::from_str(alloc, name)?))
}

#[test]
fn an_unknown_key_is_named(rt: HostRuntime) -> Result<(), Fail> {
    let alloc = rt.alloc();
    let text = "program = 1\nrings = 1\n\n[original]\nprogram = []";
    assert!(rt; is_refused_at(alloc, text, Fault::Key, &unknown(alloc, "original")?));
    assert!(rt;
        is_refused_at(
            alloc,
            "\"que\\u0075e\" = 1",
            Fault::Key,
            &unknown(alloc, "queue")?
        )
    );
    Ok(())
}

#[test]
fn what_is_no_toml_has_the_byte_at_which_its_reader_stopped(rt: HostRuntime) {
    assert!(rt;
        is_refused_at(
            rt.alloc(),
            "program = []\n]",
            Fault::Syntax,
            &Spot::Byte(13)
        )
    );
}
