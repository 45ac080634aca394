//! Laws of counters. Each is a function that does nothing, and whose contract is the law.
ghost use Rattle.std.specs.Prelude.{◌≡◌, ℕ};
ghost use Rattle.bpf_maps.specs.Beginning.{Beginning, BeginsAsEver};

/// Counters that begin with 0 are as those of which no beginning is said.
pub fn counters_begin_with_zero()
    ensures { (begin : Beginning) → ((m k j : ℕ) → begin m k j ≡ 0) → BeginsAsEver begin }
{}
