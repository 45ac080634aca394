//! Laws of the definitions.

ghost use Rattle.std.specs.Prelude.{◌≡◌, ◌+◌, ◌<◌, Contains, List, Some, ℕ};
ghost use Rattle.xen_page.specs.Table.{entry_place};
ghost use Rattle.xen_page.specs.declared.place.Place.{Place};

/// The two words of a reference's entry lie in a page, and that page is one of the table's.
pub fn entries_lie_in_the_table()
    ensures { (frames : List ℕ) (gref : ℕ) (at : Place) → entry_place frames gref ≡ Some at →
        (at.word + 1 < 1024) × Contains frames at.frame }
{}
