//! A number of a list of bounds, so that most lists that differ needn't be gone through.
ghost use Rattle.std.specs.Prelude.{◌≡◌};
ghost use Rattle.bpf_note.specs.Fingerprint.{fingerprint_of};

use crate::bound::Bound;
use std::hash::{FoldHasher, Hash, Hasher};

/// The number of a list of bounds.
#[tactic(auto, unfolding(crate::specs::Fingerprint::fingerprint_of))]
pub(crate) fn fingerprint_of(bounds: &[Bound]) -> u64
    ensures { result ≡ fingerprint_of bounds.now }
{
    if bounds.is_empty() {
        return 0;
    }
    let mut state = FoldHasher::default();
    bounds.hash(&mut state);
    state.finish()
}
