//! The operations of programs on counters.

/// One operation on counter `j` of value `k` of map `m`, with what it found there.
#[derive(Clone, Copy, Debug, PartialEq, Eq, Drop)]
pub enum Op {
    /// A load, which answered `v`.
    Load {
        m: u32,
        k: u32,
        j: u32,
        v: u64,
    },
    /// An add of `delta` modulo 2^64 to a counter that held `old`.
    Add {
        m: u32,
        k: u32,
        j: u32,
        delta: u64,
        old: u64,
    },
}
