//! What holds of every list of events of an honest pair.

ghost use Rattle.honest_pair.specs.Machine.Acts.{ActLaw};
ghost use Rattle.honest_pair.specs.Machine.Copies.{RunsHaveCopies};
ghost use Rattle.honest_pair.specs.Machine.Halves.{AreHalves};
ghost use Rattle.honest_pair.specs.Machine.Log.{LogLaw};
ghost use Rattle.honest_pair.specs.Machine.Traces.{TraceLaw};
ghost use Rattle.honest_pair.specs.Invariant.Laws.{BackLaws};
ghost use Rattle.honest_pair.specs.Machine.Law.{PairLaw};
ghost use Rattle.honest_pair.specs.Offloaded.{OffloadsAreReceived};

/// The halves of a turn are the whole turn.
pub fn turns_have_halves()
    ensures { AreHalves }
{}

/// The packet that a turn's first half gives is the copy in its trace, on which the program ran.
pub fn runs_have_copies()
    ensures { RunsHaveCopies }
{}

/// Each read of either end answers what was last written to its place, else the place's word before the first event.
pub fn reads_are_faithful()
    ensures { LogLaw }
{}

/// The back's events are the traces of its turns, with the copies that these made, and a prefix of one more.
pub fn events_are_of_turns()
    ensures { TraceLaw }
{}

/// The front's events are the traces of its sends, posts and polls, and a prefix of one more.
pub fn events_are_of_acts()
    ensures { ActLaw }
{}

/// Whatever the front does between its events, a turn of the back keeps the invariant.
pub fn back_law()
    ensures { BackLaws }
{}

/// What holds of every list of events of the pair.
pub fn pair_law()
    ensures { PairLaw }
{}

/// What a delivery has written for a packet that leaves its front something, the front receives: the packet's bytes, with what
/// it leaves to the front.
pub fn offloads_are_received()
    ensures { OffloadsAreReceived }
{}
