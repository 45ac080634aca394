//! Lists of what is known of ids: rising ids, each with something to say.
ghost use Rattle.std.specs.Prelude.{◌≡◌, ◌↔◌, [], IsTrue, All, None, IfOk, IfSome, IfNone, OnOk, OnErr, ◌++◌, ◌≤◌, length, take, slice_get};
ghost use Rattle.bpf_note.specs.Join.{lesser};
ghost use Rattle.bpf_note.specs.Parts.{top_in, safe_in, IsNormal};
ghost use Rattle.bpf_note.specs.Bounds.{place_of, has_id, IsSet, AreJoined, IsJoinedOnto, IsJoinedFront};
ghost use Rattle.bpf_note.specs.Bounds.{says, alone, paired, with_said, all_alone};

use crate::bound::Bound;
use std::alloc::{AllocError, Global};

/// The greatest base of an id.
pub(crate) fn top_of(bounds: &[Bound], id: u16) -> u32
    requires { IsNormal bounds.now }
    ensures { result ≡ top_in bounds.now id }
{
    match find(bounds, id) {
        Some(bound) => bound.top,
        None => 0,
    }
}

/// The safe bound of an id.
pub(crate) fn safe_of(bounds: &[Bound], id: u16) -> Option<u32>
    requires { IsNormal bounds.now }
    ensures { result ≡ safe_in bounds.now id }
{
    match find(bounds, id) {
        Some(bound) => bound.safe,
        None => None,
    }
}

/// The bound of an id, if there is one.
fn find(bounds: &[Bound], id: u16) -> Option<Bound>
    requires { IsNormal bounds.now }
    ensures some { IfSome result (λ b. (top_in bounds.now id ≡ b.top) × (safe_in bounds.now id ≡ b.safe)) }
    ensures none { IfNone result ((top_in bounds.now id ≡ 0) × (safe_in bounds.now id ≡ None)) }
{
    let at = place(bounds, id);
    if is_at(bounds, at, id) {
        Some(bounds[at])
    } else {
        None
    }
}

/// Sets what is known of an id. An `Err` changes nothing.
pub(crate) fn set_bound(bounds: &mut Vec<Bound>, new: Bound) -> Result<(), AllocError>
    requires { IsNormal bounds.old.items }
    ensures ok { OnOk result (IsSet bounds.old.items new bounds.new.items) }
    ensures err { OnErr result (bounds.new.items ≡ bounds.old.items) }
{
    let at = place(bounds, new.id);
    match (is_at(bounds, at, new.id), says(new)) {
        (true, true) => bounds[at] = new,
        (true, false) => {
            bounds.remove(at);
        }
        (false, true) => bounds.insert(at, new)?,
        (false, false) => {}
    }
    Ok(())
}

/// Returns whether the bounds say of an id what this one does.
pub(crate) fn stands(bounds: &[Bound], bound: Bound) -> bool
    requires { IsNormal bounds.now }
    ensures { IsTrue result → IsSet bounds.now bound bounds.now }
{
    let (top, safe) = match find(bounds, bound.id) {
        Some(known) => (known.top, known.safe),
        None => (0, None),
    };
    top == bound.top && safe == bound.safe
}

/// A copy of the bounds, with room for one more.
pub(crate) fn with_room(alloc: Global, bounds: &[Bound]) -> Result<Vec<Bound>, AllocError>
    ensures { IfOk result (λ c. c.items ≡ bounds.now) }
{
    let mut copy = Vec::with_capacity(alloc, bounds.len() + 1)?;
    copy.extend_from_slice(bounds)?;
    Ok(copy)
}

/// Returns the number of bounds that are of lesser ids.
fn place(bounds: &[Bound], id: u16) -> usize
    requires { IsNormal bounds.now }
    ensures value { result ≡ place_of bounds.now id }
    ensures inside { result ≤ length bounds.now }
{
    let mut low = 0;
    let mut high = bounds.len();
    while low < high {
        let middle = low + (high - low) / 2;
        if bounds[middle].id < id {
            low = middle + 1;
        } else {
            high = middle;
        }
    }
    low
}

/// Returns whether the bound at a place is of the id.
fn is_at(bounds: &[Bound], at: usize, id: u16) -> bool
    ensures { result ≡ has_id (slice_get bounds.now at) id }
{
    match bounds.get(at) {
        Some(bound) => bound.id == id,
        None => false,
    }
}

/// Returns whether a bound says anything.
fn says(bound: Bound) -> bool
    ensures { result ≡ says bound }
{
    bound.top != 0 || bound.safe.is_some()
}

/// Returns whether the bounds are equal.
pub(crate) fn are_same(a: &[Bound], b: &[Bound]) -> bool
    ensures { IsTrue result ↔ (a.now ≡ b.now) }
{
    a == b
}

/// Returns what is known of each id if either list may be true; `None` if that is the first list.
pub(crate) fn join_bounds(
    alloc: Global,
    a: &[Bound],
    b: &[Bound],
) -> Result<Option<Vec<Bound>>, AllocError>
    requires a { IsNormal a.now }
    requires b { IsNormal b.now }
    ensures some { IfOk result (λ o. IfSome o (λ c. AreJoined a.now b.now c.items)) }
    ensures none { IfOk result (λ o. IfNone o (AreJoined a.now b.now a.now)) }
{
    let (i, j) = kept_front(a, b);
    let (rest, others) = (&a[i..], &b[j..]);
    if covers_bounds(rest, others) {
        return Ok(None);
    }
    let mut joined = Vec::with_capacity(alloc, a.len().max(b.len()))?;
    joined.extend_from_slice(a)?;
    let same = pair_front(&mut joined[i..], others);
    joined.truncate(i + same);
    push_joined(&mut joined, &rest[same..], &others[same..])?;
    Ok(Some(joined))
}

/// Places in the two lists up to which the first list stays as it is when the two are joined. How far it looks is a
/// matter of time alone.
fn kept_front(a: &[Bound], b: &[Bound]) -> (usize, usize)
    requires a { IsNormal a.now }
    requires b { IsNormal b.now }
    ensures inside { (result.0 ≤ length a.now) × (result.1 ≤ length b.now) }
    ensures front { IsJoinedFront a.now b.now result.0 result.1 (take result.0 a.now) }
{
    let mut i = 0;
    let mut j = 0;
    while i < a.len() && j < b.len() {
        let (x, y) = (a[i], b[j]);
        if x.id < y.id {
            if x.safe.is_some() {
                break;
            }
            i += 1;
        } else if y.id < x.id {
            if y.top != 0 {
                break;
            }
            j += 1;
        } else {
            if paired(x, y) != x {
                break;
            }
            i += 1;
            j += 1;
        }
    }
    (i, j)
}

/// Joins the bounds at the front of two lists in the first one, as far as their ids are the same. Gives how many it joined, which
/// is a matter of time alone.
fn pair_front(own: &mut [Bound], others: &[Bound]) -> usize
    requires own { IsNormal own.old }
    requires others { IsNormal others.now }
    ensures inside { (result ≤ length own.old) × (result ≤ length others.now) }
    ensures front { IsJoinedFront own.old others.now result result (take result own.new) }
{
    let size = own.len().min(others.len());
    for k in 0..size {
        let both = paired(own[k], others[k]);
        if own[k].id != others[k].id || !says(both) {
            return k;
        }
        own[k] = both;
    }
    size
}

/// Adds the join of two lists.
fn push_joined(joined: &mut Vec<Bound>, a: &[Bound], b: &[Bound]) -> Result<(), AllocError>
    requires a { IsNormal a.now }
    requires b { IsNormal b.now }
    ensures { OnOk result (IsJoinedOnto joined.old.items a.now b.now joined.new.items) }
{
    let mut i = 0;
    let mut j = 0;
    while i < a.len() && j < b.len() {
        let (x, y) = (a[i], b[j]);
        if x.id < y.id {
            push_said(joined, alone(x))?;
            i += 1;
        } else if y.id < x.id {
            push_said(joined, alone(y))?;
            j += 1;
        } else {
            push_said(joined, paired(x, y))?;
            i += 1;
            j += 1;
        }
    }
    push_alone(joined, &a[i..])?;
    push_alone(joined, &b[j..])?;
    Ok(())
}

/// Returns whether the join of the two lists is the first.
pub(crate) fn covers_bounds(a: &[Bound], b: &[Bound]) -> bool
    requires a { IsNormal a.now }
    requires b { IsNormal b.now }
    ensures { IsTrue result ↔ AreJoined a.now b.now a.now }
{
    let mut i = 0;
    let mut j = 0;
    while i < a.len() && j < b.len() {
        let (x, y) = (a[i], b[j]);
        if x.id < y.id {
            if x.safe.is_some() {
                return false;
            }
            i += 1;
        } else if y.id < x.id {
            if y.top != 0 {
                return false;
            }
            j += 1;
        } else {
            if paired(x, y) != x {
                return false;
            }
            i += 1;
            j += 1;
        }
    }
    have_no_safe(&a[i..]) && have_no_top(&b[j..])
}

fn have_no_safe(bounds: &[Bound]) -> bool
    ensures { IsTrue result ↔ All (λ b. b.safe ≡ None) bounds.now }
{
    bounds.iter().all(|bound| bound.safe.is_none())
}

fn have_no_top(bounds: &[Bound]) -> bool
    ensures { IsTrue result ↔ All (λ b. b.top ≡ 0) bounds.now }
{
    bounds.iter().all(|bound| bound.top == 0)
}

/// Adds a bound if it says something.
fn push_said(bounds: &mut Vec<Bound>, new: Bound) -> Result<(), AllocError>
    ensures { OnOk result (bounds.new.items ≡ bounds.old.items ++ with_said new []) }
{
    if says(new) {
        bounds.push(new)?;
    }
    Ok(())
}

/// Adds bounds, each joined with none.
fn push_alone(bounds: &mut Vec<Bound>, others: &[Bound]) -> Result<(), AllocError>
    ensures { OnOk result (bounds.new.items ≡ bounds.old.items ++ all_alone others.now) }
{
    for other in others {
        push_said(bounds, alone(*other))?;
    }
    Ok(())
}

/// A bound joined with none.
fn alone(bound: Bound) -> Bound
    ensures { result ≡ alone bound }
{
    Bound {
        id: bound.id,
        top: bound.top,
        safe: None,
    }
}

/// The join of two bounds of the same id.
fn paired(a: Bound, b: Bound) -> Bound
    ensures { result ≡ paired a b }
{
    Bound {
        id: a.id,
        top: a.top.max(b.top),
        safe: lesser(a.safe, b.safe),
    }
}

/// The lesser of two bounds, if both are there.
fn lesser(a: Option<u32>, b: Option<u32>) -> Option<u32>
    ensures { result ≡ lesser a b }
{
    match (a, b) {
        (Some(a), Some(b)) => Some(a.min(b)),
        _ => None,
    }
}
