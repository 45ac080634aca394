//! What each step tells.
ghost use Rattle.std.specs.Prelude.{[], ◌++◌};
ghost use Rattle.bpf_maps.specs.Rule.{loaded, fetched, looked, view, first_of, rest_of};

use crate::view::View;
use atomic_table::{Join, Play, Split};

/// The seat's list grew by a load of the word.
pub(crate) struct Loaded;

impl Play<(), View> for Loaded {
    ghost then = { loaded };
}

/// The seat's list grew by an add to the word.
pub(crate) struct Fetched;

impl Play<(), View> for Fetched {
    ghost then = { fetched };
}

/// Nothing changed, and the seat's lists stand in one history: how a fact is read off the rule.
pub(crate) struct Look;

impl Play<(), View> for Look {
    ghost then = { looked };
}

/// The first number goes to the new seat.
pub(crate) struct SplitFirst;

impl Split<View> for SplitFirst {
    ghost left = { λ v. view v.shapes v.begin (rest_of v.parts) };

    ghost right = { λ v. view v.shapes v.begin (first_of v.parts) };
}

/// The other's numbers come before the seat's own.
pub(crate) struct JoinBoth;

impl Join<View> for JoinBoth {
    ghost both = { λ v w. view v.shapes v.begin (w.parts ++ v.parts) };

    ghost spent = { view [] [] [] };
}
