ghost use Rattle.std.specs.Prelude.{◌≡◌};
ghost use Rattle.cpu.specs.State.{index_of};
ghost use Rattle.cpu.specs.Effects.{noted, adc, compared, loaded_a, calculated, index_loaded, transferred, changed, leftward, rightward, shifted, shifted_a, shifted_index, raised_x, lowered_y};

use crate::registers::{Flags, Registers};
use crate::sum::{SIGN, add};
use sheet::operation::{AluOp, Index, ShiftOp, Transfer};

impl Registers {
    // N and Z tell of the byte.
    fn note(&mut self, byte: u8)
        ensures { self.new ≡ noted self.old byte }
    {
        self.flags.n = byte >= SIGN;
        self.flags.z = byte == 0;
    }

    // A + operand + C. N, V, H, Z and C tell of it.
    fn adc(&mut self, operand: u8)
        ensures { self.new ≡ adc self.old operand }
    {
        let sum = add(self.a, operand, self.flags.c);
        self.a = sum.value;
        self.flags = Flags {
            n: sum.n,
            v: sum.v,
            h: sum.h,
            z: sum.z,
            c: sum.c,
            ..self.flags
        };
    }

    // N, Z and C tell of register - operand.
    fn compare_byte(&mut self, register: u8, operand: u8)
        ensures { self.new ≡ compared self.old register operand }
    {
        let sum = add(register, u8::MAX - operand, true);
        self.flags = Flags {
            n: sum.n,
            z: sum.z,
            c: sum.c,
            ..self.flags
        };
    }

    // A becomes the byte, and N and Z tell of it.
    fn load_a(&mut self, byte: u8)
        ensures { self.new ≡ loaded_a self.old byte }
    {
        self.a = byte;
        self.note(byte);
    }

    // ADC, SBC, CMP, OR, AND, EOR and LDA.
    pub fn calculate(&mut self, op: AluOp, operand: u8)
        ensures { self.new ≡ calculated self.old op operand }
    {
        match op {
            AluOp::Adc => self.adc(operand),
            AluOp::Sbc => self.adc(u8::MAX - operand),
            AluOp::Cmp => self.compare_byte(self.a, operand),
            AluOp::Or => self.load_a(self.a | operand),
            AluOp::And => self.load_a(self.a & operand),
            AluOp::Eor => self.load_a(self.a ^ operand),
            AluOp::Lda => self.load_a(operand),
        }
    }

    // CMPX and CMPY.
    pub fn compare(&mut self, index: Index, operand: u8)
        ensures { self.new ≡ compared self.old (index_of self.old index) operand }
    {
        let register = self.index(index);
        self.compare_byte(register, operand);
    }

    // LDX and LDY. N and Z tell of the byte.
    pub fn load(&mut self, index: Index, byte: u8)
        ensures { self.new ≡ index_loaded self.old index byte }
    {
        *self.index_mut(index) = byte;
        self.note(byte);
    }

    // TXA, TAX, TYA, TAY, TXSP and TSPX. All set N and Z.
    pub fn transfer(&mut self, way: Transfer)
        ensures { self.new ≡ transferred self.old way }
    {
        match way {
            Transfer::Txa => self.load_a(self.x),
            Transfer::Tax => self.load(Index::X, self.a),
            Transfer::Tya => self.load_a(self.y),
            Transfer::Tay => self.load(Index::Y, self.a),
            Transfer::Txsp => {
                self.sp = self.x;
                self.note(self.sp);
            }
            Transfer::Tspx => self.load(Index::X, self.sp),
        }
    }

    // Notes the byte that an operation made, and answers it.
    fn change(&mut self, byte: u8) -> u8
        ensures { (self.new, result) ≡ changed self.old byte }
    {
        self.note(byte);
        byte
    }

    // The byte one bit to the left, with the carry as bit 0. C is the bit that leaves it.
    fn left(&mut self, byte: u8, carry: bool) -> u8
        ensures { (self.new, result) ≡ leftward self.old byte carry }
    {
        self.flags.c = byte >= SIGN;
        self.change((byte << 1) + u8::from(carry))
    }

    // The byte one bit to the right, with the carry as bit 7. C is the bit that leaves it.
    fn right(&mut self, byte: u8, carry: bool) -> u8
        ensures { (self.new, result) ≡ rightward self.old byte carry }
    {
        self.flags.c = byte & 1 == 1;
        self.change(byte >> 1 | u8::from(carry) << 7)
    }

    // What ASL, ROL, LSR, ROR, INC or DEC makes of a byte. All set N and Z, and the first four C.
    pub fn shift(&mut self, op: ShiftOp, byte: u8) -> u8
        ensures { (self.new, result) ≡ shifted self.old op byte }
    {
        match op {
            ShiftOp::Asl => self.left(byte, false),
            ShiftOp::Rol => self.left(byte, self.flags.c),
            ShiftOp::Lsr => self.right(byte, false),
            ShiftOp::Ror => self.right(byte, self.flags.c),
            ShiftOp::Inc => self.change(byte.wrapping_add(1)),
            ShiftOp::Dec => self.change(byte.wrapping_sub(1)),
        }
    }

    // The same on A.
    pub fn shift_a(&mut self, op: ShiftOp)
        ensures { self.new ≡ shifted_a self.old op }
    {
        let value = self.shift(op, self.a);
        self.a = value;
    }

    // The same on X or Y.
    pub fn shift_index(&mut self, op: ShiftOp, index: Index)
        ensures { self.new ≡ shifted_index self.old op index }
    {
        let old = self.index(index);
        let value = self.shift(op, old);
        *self.index_mut(index) = value;
    }

    // X + 1 after LDA {X}+ and STA {X}+. Sets no flag.
    pub fn raise_x(&mut self)
        ensures { self.new ≡ raised_x self.old }
    {
        self.x = self.x.wrapping_add(1);
    }

    // Y - 1 for DBNE, and whether it is not 0. Sets no flag.
    pub fn lower_y(&mut self) -> bool
        ensures { (self.new, result) ≡ lowered_y self.old }
    {
        self.y = self.y.wrapping_sub(1);
        self.y != 0
    }
}
