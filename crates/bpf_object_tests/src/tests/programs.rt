//! Objects that have no such program, each for its cause.
use super::small::{HEADERS, RELOCATION, SMALL, SYMBOLS, changed, program_fault};
use bpf_object::{ProgramFault, RelocationFault};

/// The fault of the relocation.
fn relocation(cause: RelocationFault) -> Option<ProgramFault> {
    Some(ProgramFault::Relocation(0, cause))
}

/// The place of the function's symbol.
const FUNCTION: usize = SYMBOLS + 24;

#[test]
fn the_program_is_there(rt: HostRuntime) {
    assert_eq!(rt; program_fault(rt.alloc(), &SMALL), None);
}

#[test]
fn a_function_is_found_by_its_name(rt: HostRuntime) {
    let function = SYMBOLS + 24;
    let no_name = changed(function, 0);
    assert_eq!(rt;
        program_fault(rt.alloc(), &no_name),
        Some(ProgramFault::NoFunction)
    );
    let name_outside = changed(function + 3, 255);
    assert_eq!(rt;
        program_fault(rt.alloc(), &name_outside),
        Some(ProgramFault::NoFunction)
    );
    let variable = changed(function + 4, 0x11);
    assert_eq!(rt;
        program_fault(rt.alloc(), &variable),
        Some(ProgramFault::NoFunction)
    );
    let longer = changed(64 + 39, b's');
    assert_eq!(rt;
        program_fault(rt.alloc(), &longer),
        Some(ProgramFault::NoFunction)
    );
}

#[test]
fn a_function_is_whole_slots_of_code(rt: HostRuntime) {
    for (place, byte) in [
        (FUNCTION + 6, 0),
        (FUNCTION + 6, 4),
        (FUNCTION + 6, 6),
        (FUNCTION + 7, 255),
        (FUNCTION + 8, 8),
        (FUNCTION + 8, 1),
        (FUNCTION + 16, 31),
        (FUNCTION + 16, 40),
        (FUNCTION + 16, 0),
        (FUNCTION + 23, 255),
    ] {
        let bytes = changed(place, byte);
        assert_eq!(rt; program_fault(rt.alloc(), &bytes), Some(ProgramFault::Code));
    }
}

#[test]
fn one_table_of_relocations_applies(rt: HostRuntime) {
    let table = HEADERS + 64 * 3;
    for (place, byte) in [(4, 4), (32, 15), (40, 1), (56, 24)] {
        let bytes = changed(table + place, byte);
        assert_eq!(rt;
            program_fault(rt.alloc(), &bytes),
            Some(ProgramFault::Table(3))
        );
    }
    let other_section = changed(table + 44, 1);
    assert_eq!(rt; program_fault(rt.alloc(), &other_section), None);
}

#[test]
fn a_relocation_names_a_map(rt: HostRuntime) {
    let call = changed(RELOCATION + 8, 10);
    assert_eq!(rt;
        program_fault(rt.alloc(), &call),
        relocation(RelocationFault::Kind)
    );
    let no_load = changed(RELOCATION, 16);
    assert_eq!(rt;
        program_fault(rt.alloc(), &no_load),
        relocation(RelocationFault::Place)
    );
    let half_slot = changed(RELOCATION, 4);
    assert_eq!(rt;
        program_fault(rt.alloc(), &half_slot),
        relocation(RelocationFault::Place)
    );
    let last_slot = changed(RELOCATION, 24);
    assert_eq!(rt;
        program_fault(rt.alloc(), &last_slot),
        relocation(RelocationFault::Place)
    );
    let no_symbol = changed(RELOCATION + 12, 3);
    assert_eq!(rt;
        program_fault(rt.alloc(), &no_symbol),
        relocation(RelocationFault::Other)
    );
    let function = changed(RELOCATION + 12, 1);
    assert_eq!(rt;
        program_fault(rt.alloc(), &function),
        relocation(RelocationFault::Other)
    );
    let outside = changed(RELOCATION, 32);
    assert_eq!(rt; program_fault(rt.alloc(), &outside), None);
}

#[test]
fn maps_stand_in_a_section_of_their_own(rt: HostRuntime) {
    let other_name = changed(HEADERS + 64 * 4, 1);
    assert_eq!(rt;
        program_fault(rt.alloc(), &other_name),
        relocation(RelocationFault::Other)
    );
    let other_section = changed(SYMBOLS + 48 + 6, 2);
    assert_eq!(rt;
        program_fault(rt.alloc(), &other_section),
        relocation(RelocationFault::Other)
    );
    let number_in_load = changed(110 + 4, 1);
    assert_eq!(rt;
        program_fault(rt.alloc(), &number_in_load),
        relocation(RelocationFault::InsideMap)
    );
}
