//! The fields of a slot.
ghost use Rattle.std.specs.Prelude.{◌≡◌, ◌<◌, length};
ghost use Rattle.bpf_insn.specs.Fields.{FitsSlot, slot_bytes};

use byteorder::{ByteOrder, LittleEndian};

/// The fields of a slot: opcode, register numbers of four bits each, offset and immediate.
#[derive(Clone, Copy, Debug, PartialEq, Eq, Drop)]
pub(crate) struct Fields {
    pub op: u8,
    pub dst: u8,
    pub src: u8,
    pub off: i16,
    pub imm: i32,
}

/// The fields of a slot's eight bytes.
pub(crate) fn fields_of(bytes: &[u8]) -> Fields
    requires { length bytes.now ≡ 8 }
    ensures bytes { bytes.now ≡ slot_bytes result }
    ensures fits { FitsSlot result }
{
    let off = LittleEndian::read_u16(&bytes[2..]);
    let imm = LittleEndian::read_u32(&bytes[4..]);
    Fields {
        op: bytes[0],
        dst: bytes[1] % 16,
        src: bytes[1] / 16,
        off: off.cast_signed(),
        imm: imm.cast_signed(),
    }
}

/// A slot's eight bytes.
pub(crate) fn bytes_of(f: Fields) -> [u8; 8]
    requires dst { f.dst < 16 }
    requires src { f.src < 16 }
    ensures { result ≡ slot_bytes f }
{
    let off = f.off.cast_unsigned();
    let imm = f.imm.cast_unsigned();
    [
        f.op,
        f.dst + 16 * f.src,
        (off % 256) as u8,
        (off / 256) as u8,
        (imm % 256) as u8,
        (imm / 256 % 256) as u8,
        (imm / 65_536 % 256) as u8,
        (imm / 16_777_216) as u8,
    ]
}
