//! Loading again after it was refused memory. `tools/gate/refuse-growths` refuses each allocation of these tests in turn, and
//! counts the runs that print `refused`.

use crate::loading::{Counts, counts};
use crate::tests::EVERY_KEY;
use std::alloc::Global;
use std::test::Fail;
use xdp_load::{Fault, Key, LoadError, Part, Refused, Spot};

/// Two maps have one name.
const NAMED_TWICE: &str = "\
program = [\"9500000000000000\"]
map = [{ name = \"a\", entries = 1 }, { name = \"a\", entries = 1 }]
";

/// Returns what is loaded, asked for again after L0.
fn load_again(
    rt: &impl Print,
    alloc: Global,
    text: &str,
) -> Result<Result<Counts, LoadError>, Fail> {
    match counts(alloc, text) {
        Err(LoadError::Memory) => {
            println!(rt; "refused")?;
            Ok(counts(alloc, text))
        }
        other => Ok(other),
    }
}

#[test]
fn settings_are_loaded_again(rt: HostRuntime) -> Result<(), Fail> {
    let found = load_again(&rt, rt.alloc(), EVERY_KEY)?;
    assert_eq!(rt; found, Ok(([48, 2, 2, 2, 2], 2, 7, u32::MAX)));
    Ok(())
}

#[test]
fn settings_are_refused_again(rt: HostRuntime) -> Result<(), Fail> {
    let found = load_again(&rt, rt.alloc(), NAMED_TWICE)?;
    let refused = Refused {
        fault: Fault::Name,
        part: Part::Settings,
        spot: Spot::Row(Key::Name, 0),
    };
    assert_eq!(rt; found, Err(LoadError::Refused(refused)));
    Ok(())
}
