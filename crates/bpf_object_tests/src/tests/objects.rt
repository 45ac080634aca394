//! Bytes that are no object, each for its cause.
use super::small::{HEADERS, SMALL, changed, fault};
use bpf_object::ObjectFault;

#[test]
fn the_object_is_taken(rt: HostRuntime) {
    assert_eq!(rt; fault(&SMALL), None);
}

#[test]
fn a_file_begins_with_a_header(rt: HostRuntime) {
    assert_eq!(rt; fault(&[]), Some(ObjectFault::NoHeader));
    assert_eq!(rt; fault(&SMALL[..63]), Some(ObjectFault::NoHeader));
    assert_eq!(rt; fault(&changed(0, 0x7e)), Some(ObjectFault::NoHeader));
    assert_eq!(rt; fault(&changed(3, b'G')), Some(ObjectFault::NoHeader));
}

#[test]
fn files_of_32_bits_and_of_the_other_byte_order_are_refused(rt: HostRuntime) {
    assert_eq!(rt; fault(&changed(4, 1)), Some(ObjectFault::Format));
    assert_eq!(rt; fault(&changed(5, 2)), Some(ObjectFault::Format));
    assert_eq!(rt; fault(&changed(6, 0)), Some(ObjectFault::Format));
}

#[test]
fn programs_and_files_for_other_machines_are_refused(rt: HostRuntime) {
    assert_eq!(rt; fault(&changed(16, 2)), Some(ObjectFault::Machine));
    assert_eq!(rt; fault(&changed(18, 62)), Some(ObjectFault::Machine));
}

#[test]
fn the_section_headers_lie_in_the_file(rt: HostRuntime) {
    assert_eq!(rt; fault(&SMALL[..623]), Some(ObjectFault::SectionTable));
    assert_eq!(rt; fault(&changed(58, 40)), Some(ObjectFault::SectionTable));
    assert_eq!(rt; fault(&changed(60, 7)), Some(ObjectFault::SectionTable));
    assert_eq!(rt; fault(&changed(61, 255)), Some(ObjectFault::SectionTable));
    assert_eq!(rt; fault(&changed(47, 255)), Some(ObjectFault::SectionTable));
}

#[test]
fn sections_lie_in_the_file(rt: HostRuntime) {
    let size = HEADERS + 64 * 4 + 32;
    assert_eq!(rt;
        fault(&changed(size + 1, 255)),
        Some(ObjectFault::Section(4))
    );
    assert_eq!(rt;
        fault(&changed(size + 7, 255)),
        Some(ObjectFault::Section(4))
    );
    let offset = HEADERS + 64 * 2 + 24;
    assert_eq!(rt;
        fault(&changed(offset + 7, 255)),
        Some(ObjectFault::Section(2))
    );
}

#[test]
fn sections_have_names(rt: HostRuntime) {
    assert_eq!(rt; fault(&changed(62, 6)), Some(ObjectFault::SectionNames));
    assert_eq!(rt; fault(&changed(62, 2)), Some(ObjectFault::SectionNames));
}

#[test]
fn there_is_one_symbol_table(rt: HostRuntime) {
    assert_eq!(rt;
        fault(&changed(HEADERS + 64 * 5 + 4, 1)),
        Some(ObjectFault::NoSymbols)
    );
    assert_eq!(rt;
        fault(&changed(HEADERS + 64 * 4 + 4, 2)),
        Some(ObjectFault::TwoSymbolTables(4, 5))
    );
}

#[test]
fn symbols_are_whole_and_have_names(rt: HostRuntime) {
    let table = HEADERS + 64 * 5;
    assert_eq!(rt; fault(&changed(table + 56, 16)), Some(ObjectFault::Symbols));
    assert_eq!(rt; fault(&changed(table + 32, 71)), Some(ObjectFault::Symbols));
    assert_eq!(rt; fault(&changed(table + 40, 2)), Some(ObjectFault::Symbols));
    assert_eq!(rt; fault(&changed(table + 42, 1)), Some(ObjectFault::Symbols));
}
