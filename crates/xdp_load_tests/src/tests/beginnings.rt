use crate::loading::{fault_number, fault_of_beginning};
use crate::tests::EVERY_KEY;
use std::alloc::{AllocError, Global};

/// The number of the fault that says that memory ran out.
const MEMORY: u8 = 0;

/// The length of the first beginning of settings, but for the whole, for which memory ran out.
fn first_out_of_memory(alloc: Global, bytes: &[u8]) -> Option<usize> {
    for end in 0..bytes.len() {
        if fault_of_beginning(alloc, bytes, end) == Some(MEMORY) {
            return Some(end);
        }
    }
    None
}

#[test]
fn every_beginning_ends_in_a_setup_or_a_fault(rt: HostRuntime) {
    assert_eq!(rt; first_out_of_memory(rt.alloc(), EVERY_KEY.as_bytes()), None);
}

/// The number of the fault of the beginning that ends with each line, or a dash for a setup.
const AFTER_EACH_LINE: &str = "3222222----222--33--33---33-33--33--33--";

/// Returns what [`AFTER_EACH_LINE`] says, as [`load`](xdp_load::load) answers.
fn after_each_line(alloc: Global) -> Result<String, AllocError> {
    let bytes = EVERY_KEY.as_bytes();
    let mut answers = String::new(alloc);
    for (at, byte) in bytes.iter().enumerate() {
        if *byte == b'\n' && at < bytes.len() {
            answers.push(match fault_of_beginning(alloc, bytes, at + 1) {
                Some(number) => char::from(b'0'.wrapping_add(number)),
                None => '-',
            })?;
        }
    }
    Ok(answers)
}

#[test]
fn each_line_ends_in_its_setup_or_fault(rt: HostRuntime) {
    let is_as_wanted = after_each_line(rt.alloc()).is_ok_and(|answers| answers.as_str()
        == AFTER_EACH_LINE);
    assert!(rt; is_as_wanted);
}

/// A queue that passes one packet and sends a notice.
const RUN: &str = "\
program = [\"b7000000020000009500000000000000\"]
script = [[0,1],[0,2],[0,0],[0,917511],[0,1],[0,19],[0,50462976],[0,117835012],[0,185207048],[0,252579084],\
[0,0],[0,0],[0,0],[0,0],[0,1],[0,0]]
";

#[test]
fn every_beginning_of_a_script_ends_in_a_setup_or_a_fault(rt: HostRuntime) {
    assert_eq!(rt; first_out_of_memory(rt.alloc(), RUN.as_bytes()), None);
    assert_eq!(rt; fault_number(rt.alloc(), RUN.as_bytes()), None);
}
