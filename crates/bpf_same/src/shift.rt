//! The numbers that a shift by a constant makes of those of a range.
ghost use Rattle.std.specs.Prelude.{◌≡◌, ◌<◌, IfSome};
ghost use Rattle.bpf_same.specs.Ranges.{IsShiftedLeft, IsShiftedRight};

use crate::range::Range;
use crate::signed::MOST;

/// The number of bits of a register.
const BITS: u32 = 64;

/// The numbers of a range, shifted to the left by each number of another one, where all lose the same bits by one number, or none loses
/// a bit by several.
pub(crate) fn shifted_left(one: Range, other: Range) -> Option<Range>
    ensures { IfSome result (λ r. IsShiftedLeft one.low one.high other.low other.high r.low r.high) }
{
    if other.low == 0 || other.low > other.high || other.high >= u64::from(BITS) {
        return None;
    }
    let (least, most) = (other.low as u32, other.high as u32);
    let (first, last) = (one.low >> (BITS - most), one.high >> (BITS - most));
    if first != last || least != most && last != 0 {
        return None;
    }
    Some(Range {
        low: one.low << least,
        high: one.high << most,
    })
}

/// The numbers of a range, shifted to the right with copies of their sign, where all have the same sign.
pub(crate) fn shifted_right(one: Range, other: Range) -> Option<Range>
    ensures { IfSome result (λ r. (other.low ≡ other.high) × (other.low < 64) × IsShiftedRight one.low one.high other.low r.low r.high) }
{
    if other.low != other.high || other.low >= u64::from(BITS) {
        return None;
    }
    let by = other.low as u32;
    if one.high <= MOST {
        Some(Range {
            low: one.low >> by,
            high: one.high >> by,
        })
    } else if one.low > MOST {
        Some(Range {
            low: !(!one.low >> by),
            high: !(!one.high >> by),
        })
    } else {
        None
    }
}
