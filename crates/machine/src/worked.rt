ghost use Rattle.std.specs.Prelude.{◌≡◌, [], ◌∷◌};
ghost use Rattle.machine.specs.Worked.{table_call, two_pending};

use cpu::worked::worked_sums;

// Worked values: A and PSW of three sums; and PC, owed ticks and IRQH after TCALL 4 by its code 4A, and with INT0 and T0 pending at once.
#[derive(Clone, Copy)]
pub struct Worked {
    pub sums: [(u8, u8); 3],
    pub call: [u16; 3],
    pub interrupt: [u16; 3],
}

pub fn worked_values() -> Worked
    ensures sums { result.sums ≡ ((0x80, 0b11001000) ∷ (0x00, 0b00001011) ∷ (0xFF, 0b10000000) ∷ []) }
    ensures call { result.call ≡ table_call }
    ensures interrupt { result.interrupt ≡ two_pending }
{
    Worked {
        sums: worked_sums(),
        call: [0x3412, 16, 0x00],
        interrupt: [0x7856, 16, 0x20],
    }
}
