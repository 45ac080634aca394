//! Which rows are refused.
use std::alloc::AllocError;

/// The reason why rows are refused. The causes are tried in this order, and rows from the first on.
#[derive(Clone, Copy, Debug, PartialEq, Eq, Drop)]
pub enum RowsRefusal {
    /// A key has no bytes of data, or more than 64.
    Width,
    /// The bytes end within a row.
    Partial,
    /// There are more than 65,536 rows.
    TooMany,
    /// The row's length in bits is above that of its data.
    Length(u32),
    /// A bit of the row is set beyond its length.
    Beyond(u32),
    /// The second row has the key of the first.
    Repeated(u32, u32),
    /// Memory ran out.
    Memory,
}

impl From<AllocError> for RowsRefusal {
    ghost use Rattle.std.specs.Prelude.{◌≡◌};
    ghost use Rattle.bpf_lists.specs.declared.refusal.RowsRefusal.TheVariants.{Memory};

    ghost from_gives = { λ _ e. e ≡ Memory };

    fn from(_error: AllocError) -> RowsRefusal {
        RowsRefusal::Memory
    }
}
