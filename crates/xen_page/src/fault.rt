//! Why a grant may not be used.

ghost use Rattle.std.specs.Prelude.{◌≡◌};

use std::error::Error;
use std::fmt;

/// The reason why a grant may not be used, by grant_table.h's status codes.
#[derive(Clone, Copy, Debug, PartialEq, Eq, Hash)]
pub enum GrantFault {
    /// The reference is outside the table, or its entry permits no access (GNTST_bad_gntref).
    BadGntref,
    /// The entry is another domain's, or read-only when writing is wanted (GNTST_permission_denied).
    PermissionDenied,
    /// The frame doesn't exist, or isn't the granter's (GNTST_bad_page).
    BadPage,
    /// The entry is already mapped, or was changed at the same time (GNTST_eagain).
    Eagain,
}

impl GrantFault {
    ghost use Rattle.xen_page.specs.Grant.{number_of};

    /// The status code.
    pub fn number(self) -> i32
        ensures { result ≡ number_of self }
    {
        match self {
            GrantFault::BadGntref => -3,
            GrantFault::PermissionDenied => -8,
            GrantFault::BadPage => -9,
            GrantFault::Eagain => -12,
        }
    }
}

impl fmt::Display for GrantFault {
    ghost use Rattle.std.specs.Prelude.{Some};
    ghost use Rattle.xen_page.specs.Grant.{text_of};

    ghost output = { λ fault. Some (text_of fault) };

    fn fmt<W: fmt::Write>(&self, f: &mut fmt::Formatter<W>) -> fmt::Result {
        f.write_str(match self {
            GrantFault::BadGntref => "no access is granted under this reference",
            GrantFault::PermissionDenied => "permission denied",
            GrantFault::BadPage => "the granted frame isn't the granter's",
            GrantFault::Eagain => "the entry is in use",
        })
    }
}

impl Error for GrantFault {}
