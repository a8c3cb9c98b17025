ghost use Rattle.std.specs.Prelude.{◌≡◌, [], ◌∷◌};
ghost use Rattle.cpu.specs.Effects.{sum_of};
ghost use Rattle.cpu.specs.Laws.{Laws};

use crate::registers::Registers;
use sheet::operation::AluOp;

// A and PSW after one operation on A and C, where the other registers are 0.
fn worked(op: AluOp, a: u8, carry: bool, operand: u8) -> (u8, u8)
    ensures { result ≡ sum_of op a carry operand }
{
    let mut registers = Registers::new();
    registers.a = a;
    registers.flags.c = carry;
    registers.calculate(op, operand);
    (registers.a, registers.psw())
}

// 7F ADC 01 with C 0 is 80 with N V H, FF ADC 01 with C 0 is 00 with H Z C, 00 SBC 01 with C 1 is FF with N.
pub fn worked_sums() -> [(u8, u8); 3]
    ensures values { result ≡ ((0x80, 0b11001000) ∷ (0x00, 0b00001011) ∷ (0xFF, 0b10000000) ∷ []) }
    ensures laws { Laws }
{
    [
        worked(AluOp::Adc, 0x7F, false, 0x01),
        worked(AluOp::Adc, 0xFF, false, 0x01),
        worked(AluOp::Sbc, 0x00, true, 0x01),
    ]
}
