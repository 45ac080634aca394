//! A copy that is under way.

ghost use Rattle.std.specs.Prelude.{◌≡◌, ◌<◌, ◌≤◌, ◌+◌, ◌-◌, ◌/◌, length, drop, sum_by};
ghost use Rattle.xen_netif.specs.Copy.{Covers};
ghost use Rattle.xen_netif.specs.Fragments.{fragment_size};
ghost use Rattle.xen_steps.specs.Pages.{HasRoom};

use crate::copy_buf::CopyBuf;
use arrayvec::ArrayVec;
use xen_netif::{Chain, Fragment};
use xen_page::Place;

/// Before the grant entry of the i-th fragment; its flags word is at `at`.
#[derive(Drop)]
pub struct Entering<'b> {
    pub chain: Chain,
    pub fragments: ArrayVec<Fragment, 18>,
    pub packet: CopyBuf<'b>,
    pub i: usize,
    pub at: Place,
    ghost word: { at.word < 1023 },
    ghost within: { i < length fragments.items },
    ghost room: { length packet + sum_by fragment_size (drop i fragments.items) ≤ 65535 },
}

/// Before the word at `place` of the fragment's page, which covers `n` more words after it. The next fragment is the i-th.
#[derive(Drop)]
pub struct Paging<'b> {
    pub chain: Chain,
    pub fragments: ArrayVec<Fragment, 18>,
    pub packet: CopyBuf<'b>,
    pub i: usize,
    pub fragment: Fragment,
    pub frame: u32,
    pub place: u32,
    pub n: u32,
    ghost within: { i ≤ length fragments.items },
    ghost covers: { Covers fragment place },
    ghost last: { place + n ≡ (fragment.offset + fragment.size - 1) / 4 },
    ghost room: { HasRoom (length packet) fragment place (sum_by fragment_size (drop i fragments.items)) },
}
