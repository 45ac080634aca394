//! What a settings text says.
ghost use Rattle.std.specs.Prelude.{◌≡◌, IfOk, IfErr, IsErrAnd, None};
ghost use Rattle.xdp_load.specs.Gives.{IsError};
ghost use Rattle.xdp_load.specs.Listed.{listed_of};
ghost use Rattle.xdp_load.specs.ListedGiven.{IsListedError, listed_view};
ghost use Rattle.xdp_load.specs.ListedSound.{IsListedSound};
ghost use Rattle.xdp_load.specs.Setup.{text_of};
ghost use Rattle.xdp_load.specs.Spot.{refused, whole};
ghost use Rattle.xdp_load.specs.declared.fault.Fault.TheVariants.{Text};
ghost use Rattle.xdp_program.specs.Settings.{IsSetupOf};

use crate::lists::are_listed;
use std::alloc::Global;
use xdp_load::{Listed, LoadError, load_listed};

/// The setup of a settings text with the lists of its maps, or its first fault and where it is.
pub fn read_settings(alloc: Global, text: &[u8]) -> Result<Listed, LoadError>
    ensures setup { IfOk result (λ x. IsSetupOf text.now (listed_view x)) }
    ensures sound { IfOk result (λ x. IsListedSound (listed_view x)) }
    ensures refused { IfErr result (IsListedError (listed_of text.now)) }

    // What is no text is refused before memory is taken.
    ensures text { text_of text.now ≡ None → IsErrAnd result (IsError (refused Text whole)) }
{
    let listed = load_listed(alloc, text)?;
    // Only the proof uses what this call ensures: each list is one that a map can have.
    are_listed(listed.lists.as_slice());
    Ok(listed)
}
