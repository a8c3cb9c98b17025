ghost use Rattle.std.specs.Prelude.{◌≡◌};
ghost use Rattle.std.specs.Borrow.{sem};
ghost use Rattle.cpu.specs.Lending.{LendsIndex};
ghost use Rattle.cpu.specs.State.{cleared, packed, unpacked, flag_of, index_of, same, byte_of, restored, switched, broken, with_flags};

use sheet::operation::{Flag, FlagOp, Index, Saved};

// Negative, overflow, direct page, break, half carry, interrupt enable, zero, carry.
#[derive(Clone, Copy, PartialEq, Eq, Default, Debug)]
pub struct Flags {
    pub n: bool,
    pub v: bool,
    pub g: bool,
    pub b: bool,
    pub h: bool,
    pub i: bool,
    pub z: bool,
    pub c: bool,
}

#[derive(Clone, Copy, PartialEq, Eq, Default, Debug)]
pub struct Registers {
    pub a: u8,
    pub x: u8,
    pub y: u8,
    pub sp: u8,
    pub pc: u16,
    pub flags: Flags,
}

// The bits of PSW, from N in bit 7 to C in bit 0.
const PSW_N: u8 = 0x80;

const PSW_V: u8 = 0x40;

const PSW_G: u8 = 0x20;

const PSW_B: u8 = 0x10;

const PSW_H: u8 = 0x08;

const PSW_I: u8 = 0x04;

const PSW_Z: u8 = 0x02;

const PSW_C: u8 = 0x01;

// The flags by the bits of a byte.
impl From<u8> for Flags {
    ghost from_gives = { λ byte flags. flags ≡ unpacked byte };

    fn from(byte: u8) -> Self {
        Flags {
            n: byte & PSW_N != 0,
            v: byte & PSW_V != 0,
            g: byte & PSW_G != 0,
            b: byte & PSW_B != 0,
            h: byte & PSW_H != 0,
            i: byte & PSW_I != 0,
            z: byte & PSW_Z != 0,
            c: byte & PSW_C != 0,
        }
    }
}

// The flags as a byte: N V G B H I Z C, bits 7 to 0.
impl From<Flags> for u8 {
    ghost from_gives = { λ flags byte. byte ≡ packed flags };

    fn from(flags: Flags) -> u8 {
        PSW_N * flags.n as u8
            + PSW_V * flags.v as u8
            + PSW_G * flags.g as u8
            + PSW_B * flags.b as u8
            + PSW_H * flags.h as u8
            + PSW_I * flags.i as u8
            + PSW_Z * flags.z as u8
            + PSW_C * flags.c as u8
    }
}

impl Registers {
    // All registers 0.
    pub fn new() -> Self
        ensures { result ≡ cleared }
    {
        Registers::default()
    }

    // The flags as a byte.
    pub fn psw(&self) -> u8
        ensures { result ≡ packed self.now.flags }
    {
        self.flags.into()
    }

    // Sets each flag by its bit, so that PSW is the byte again.
    pub fn set_psw(&mut self, byte: u8)
        ensures value { self.new ≡ with_flags self.old (unpacked byte) }
        ensures again { packed self.new.flags ≡ byte }
    {
        self.flags = byte.into();
    }

    // CLRC, SETC, DI and EI; CLRV clears H too.
    pub fn switch(&mut self, op: FlagOp)
        ensures { self.new ≡ switched self.old op }
    {
        match op {
            FlagOp::ClrC => self.flags.c = false,
            FlagOp::SetC => self.flags.c = true,
            FlagOp::ClrV => {
                self.flags.v = false;
                self.flags.h = false;
            }
            FlagOp::Di => self.flags.i = false,
            FlagOp::Ei => self.flags.i = true,
        }
    }

    // BRK sets B.
    pub fn set_break(&mut self)
        ensures { self.new ≡ broken self.old }
    {
        self.flags.b = true;
    }

    // The flag's value.
    fn flag(&self, flag: Flag) -> bool
        ensures { result ≡ flag_of self.now flag }
    {
        match flag {
            Flag::N => self.flags.n,
            Flag::V => self.flags.v,
            Flag::C => self.flags.c,
            Flag::Z => self.flags.z,
        }
    }

    // Whether a branch on this flag is taken.
    pub fn flag_is(&self, flag: Flag, on: bool) -> bool
        ensures { result ≡ same (flag_of self.now flag) on }
    {
        self.flag(flag) == on
    }

    // What STX and STY store.
    pub fn index(&self, index: Index) -> u8
        ensures { result ≡ index_of self.now index }
    {
        match index {
            Index::X => self.x,
            Index::Y => self.y,
        }
    }

    // The same register, lent to be written.
    pub(crate) fn index_mut(&mut self, index: Index) -> &mut u8
        ensures* writes_back { sem 𝓛 (LendsIndex self.entry index result) }
        ensures value { result.now ≡ index_of self.old index }
    {
        match index {
            Index::X => &mut self.x,
            Index::Y => &mut self.y,
        }
    }

    // The byte that PUSH stores.
    pub fn saved(&self, what: Saved) -> u8
        ensures { result ≡ byte_of self.now what }
    {
        match what {
            Saved::A => self.a,
            Saved::X => self.x,
            Saved::Y => self.y,
            Saved::Psw => self.psw(),
        }
    }

    // Takes the byte that POP pulled. POP of A, X or Y sets no flag. Not lent as X and Y are, since PSW is no byte of its own.
    pub fn restore(&mut self, what: Saved, byte: u8)
        ensures { self.new ≡ restored self.old what byte }
    {
        match what {
            Saved::A => self.a = byte,
            Saved::X => self.x = byte,
            Saved::Y => self.y = byte,
            Saved::Psw => self.set_psw(byte),
        }
    }
}
