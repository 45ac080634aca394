//! What a map is, and types and maps that aren't as libbpf has them, each for its cause.
use super::typed::{
    BTF, HEADERS, KEY, NUMBER, SECTION, STRUCT, SYMBOL, TYPED, VALUE, VARIABLE, changed, map,
    types_fault,
};
use bpf_object::{FieldFault, MapDefinition, MapFault, MapField, TypesFault};

/// A field's fault.
fn field(field: MapField, cause: FieldFault) -> MapFault {
    MapFault::Field(field, cause)
}

#[test]
fn the_map_is_defined(rt: HostRuntime) {
    let count = MapDefinition {
        kind: 2,
        entries: 5,
        key_bytes: 4,
        value_bytes: 12,
    };
    assert_eq!(rt; map(rt.alloc(), &TYPED), Some(Ok(count)));
}

#[test]
fn types_stand_in_one_section(rt: HostRuntime) {
    let other_name = changed(HEADERS + 64 * 3, 1);
    assert_eq!(rt;
        types_fault(rt.alloc(), &other_name),
        Some(TypesFault::NoSection)
    );
    let same_name = changed(HEADERS + 64 * 2, 15);
    assert_eq!(rt;
        types_fault(rt.alloc(), &same_name),
        Some(TypesFault::TwoSections(2, 3))
    );
}

#[test]
fn the_section_begins_with_a_header(rt: HostRuntime) {
    for (place, byte) in [(0, 0), (2, 2), (7, 255), (13, 2), (18, 255), (20, 255)] {
        let bytes = changed(BTF + place, byte);
        assert_eq!(rt; types_fault(rt.alloc(), &bytes), Some(TypesFault::Header));
    }
    let short = changed(HEADERS + 64 * 3 + 32, 23);
    assert_eq!(rt; types_fault(rt.alloc(), &short), Some(TypesFault::Header));
}

#[test]
fn types_are_whole_and_of_known_kinds(rt: HostRuntime) {
    for (place, byte, number) in [
        (NUMBER + 7, 0, 2),
        (NUMBER + 7, 20, 2),
        (KEY + 7, 31, 6),
        (STRUCT + 4, 200, 9),
        (SECTION + 4, 2, 11),
    ] {
        let bytes = changed(place, byte);
        assert_eq!(rt;
            types_fault(rt.alloc(), &bytes),
            Some(TypesFault::Row(number))
        );
    }
}

#[test]
fn a_map_is_a_global_variable_of_its_section(rt: HostRuntime) {
    for (place, byte, fault) in [
        (SECTION, 1, MapFault::NoSection),
        (SECTION + 12, 9, MapFault::NoVariable),
        (VARIABLE, 26, MapFault::NoVariable),
        (VARIABLE + 12, 0, MapFault::NoVariable),
        (VARIABLE + 8, 8, MapFault::NoStruct),
        (STRUCT + 7, 5, MapFault::NoStruct),
    ] {
        let bytes = changed(place, byte);
        assert_eq!(rt; map(rt.alloc(), &bytes), Some(Err(fault)));
    }
}

#[test]
fn a_map_is_the_one_global_symbol_of_its_name(rt: HostRuntime) {
    for (place, byte, fault) in [
        (SYMBOL + 4, 0x12, MapFault::NoMap),
        (SYMBOL + 4, 0x01, MapFault::Symbol),
        (SYMBOL + 3, 255, MapFault::Name),
    ] {
        let bytes = changed(place, byte);
        assert_eq!(rt; map(rt.alloc(), &bytes), Some(Err(fault)));
    }
}

#[test]
fn fields_are_as_libbpf_has_them(rt: HostRuntime) {
    let member = STRUCT + 12;
    for (place, byte, fault) in [
        (NUMBER + 20, 0, MapFault::NoKind),
        (member, 1, MapFault::NoKind),
        (member + 12, 5, field(MapField::Kind, FieldFault::Twice)),
        (KEY + 7, 8, field(MapField::Key, FieldFault::Kind)),
        (KEY + 8, 0, field(MapField::Key, FieldFault::Kind)),
        (VALUE + 12, 7, field(MapField::Value, FieldFault::Kind)),
        (VALUE + 23, 64, field(MapField::Value, FieldFault::Kind)),
    ] {
        let bytes = changed(place, byte);
        assert_eq!(rt; map(rt.alloc(), &bytes), Some(Err(fault)));
    }
}
