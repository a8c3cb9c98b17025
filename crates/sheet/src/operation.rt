ghost use Rattle.std.specs.Prelude.{◌≡◌};
ghost use Rattle.sheet.specs.Rule.{mask_of};

// Where a byte is: dp, dp+X, !abs, {X}, !abs+Y, [dp+X] and [dp]+Y.
#[derive(Clone, Copy, PartialEq, Eq, Debug)]
pub enum Place {
    Dp,
    DpX,
    Abs,
    AtX,
    AbsY,
    IndX,
    IndY,
}

// A byte that is read: the one after the code, or one at a place.
#[derive(Clone, Copy, PartialEq, Eq, Debug)]
pub enum Operand {
    Imm,
    At(Place),
}

#[derive(Clone, Copy, PartialEq, Eq, Debug)]
pub enum Index {
    X,
    Y,
}

// A byte that is shifted or counted.
#[derive(Clone, Copy, PartialEq, Eq, Debug)]
pub enum Target {
    A,
    Index(Index),
    At(Place),
}

#[derive(Clone, Copy, PartialEq, Eq, Debug)]
pub enum AluOp {
    Adc,
    Sbc,
    Cmp,
    Or,
    And,
    Eor,
    Lda,
}

#[derive(Clone, Copy, PartialEq, Eq, Debug)]
pub enum ShiftOp {
    Asl,
    Rol,
    Lsr,
    Ror,
    Inc,
    Dec,
}

#[derive(Clone, Copy, PartialEq, Eq, Debug)]
pub enum FlagOp {
    ClrC,
    SetC,
    ClrV,
    Di,
    Ei,
}

// Register to register: X to A, A to X, Y to A, A to Y, X to SP, SP to X.
#[derive(Clone, Copy, PartialEq, Eq, Debug)]
pub enum Transfer {
    Txa,
    Tax,
    Tya,
    Tay,
    Txsp,
    Tspx,
}

// What PUSH and POP take.
#[derive(Clone, Copy, PartialEq, Eq, Debug)]
pub enum Saved {
    A,
    X,
    Y,
    Psw,
}

// A bit of a byte, by its number.
#[derive(Clone, Copy, PartialEq, Eq, Debug)]
pub enum Bit {
    B0,
    B1,
    B2,
    B3,
    B4,
    B5,
    B6,
    B7,
}

impl Bit {
    // The byte that has this bit alone.
    pub fn mask(self) -> u8
        ensures { result ≡ mask_of self }
    {
        1 << (self as u8)
    }
}

// The flags that a branch can test.
#[derive(Clone, Copy, PartialEq, Eq, Debug)]
pub enum Flag {
    N,
    V,
    C,
    Z,
}

// A branch on a condition, which costs two cycles more where it is taken. The `bool` is what the bit or the flag has to be.
#[derive(Clone, Copy, PartialEq, Eq, Debug)]
pub enum Branch {
    BitOfA(Bit, bool),
    BitOfDp(Bit, bool),
    Flag(Flag, bool),
    DbneDp,
    DbneY,
}

// What a code does. LdaNext and StaNext are LDA {X}+ and STA {X}+, which add 1 to X; Ldm stores a number at dp.
// Unlisted is a code that is not on the sheet.
#[derive(Clone, Copy, PartialEq, Eq, Debug)]
pub enum Operation {
    Unlisted,
    Flag(FlagOp),
    Set1(Bit),
    Clr1(Bit),
    Branch(Branch),
    Alu(AluOp, Operand),
    Sta(Place),
    LdaNext,
    StaNext,
    Ldm,
    Shift(ShiftOp, Target),
    Transfer(Transfer),
    Load(Index, Operand),
    Compare(Index, Operand),
    Store(Index, Place),
    Push(Saved),
    Pop(Saved),
    Tcall(u8),
    Pcall,
    Call,
    Jmp,
    Bra,
    Brk,
    Ret,
    Reti,
    Stop,
    Nop,
}
