//! Laws of a front's activities.

ghost use Rattle.xen_front.specs.Bound.{AreShort};
ghost use Rattle.xen_front.specs.Laws.{AreActivities};

/// Each run of what a front has left as an activity begins is a row of the table of activities, and each row is a run.
pub fn runs_are_activities()
    ensures { AreActivities }
{}

/// Each activity of a wired front keeps to the frames that the front was made with, sends its notices to the front's port,
/// and has a bounded number of events, whatever it is answered.
pub fn activities_are_short()
    ensures { AreShort }
{}
