ghost use Rattle.std.specs.Prelude.{◌≡◌};
ghost use Rattle.bus.specs.Outcomes.{after};
ghost use Rattle.bus.specs.Seen.{seen};
ghost use Rattle.instructions.specs.Operations.{calculated_with, loaded_with, compared_with, number_stored, shifted_at, with_mask, bit_put, pushed_saved, popped_saved};

use bus::parts::Parts;
use bus::view::View;
use faults::Fault;
use sheet::operation::{AluOp, Bit, Index, Operand, Place, Saved, ShiftOp, Target};

// ADC, SBC, CMP, OR, AND, EOR and LDA. This, LDX and CMPX differ in what the registers do with the byte: a closure's contract
// would be longer than these bodies.
pub(crate) fn calculate(
    parts: &mut Parts,
    view: &View,
    op: AluOp,
    operand: Operand,
) -> Result<(), Fault>
    ensures { after result parts.new ≡ calculated_with parts.old (seen view.now) op operand }
{
    let v = parts.operand(view, operand)?;
    parts.registers.calculate(op, v);
    Ok(())
}

// LDX and LDY.
pub(crate) fn load(
    parts: &mut Parts,
    view: &View,
    index: Index,
    operand: Operand,
) -> Result<(), Fault>
    ensures { after result parts.new ≡ loaded_with parts.old (seen view.now) index operand }
{
    let v = parts.operand(view, operand)?;
    parts.registers.load(index, v);
    Ok(())
}

// CMPX and CMPY.
pub(crate) fn compare(
    parts: &mut Parts,
    view: &View,
    index: Index,
    operand: Operand,
) -> Result<(), Fault>
    ensures { after result parts.new ≡ compared_with parts.old (seen view.now) index operand }
{
    let v = parts.operand(view, operand)?;
    parts.registers.compare(index, v);
    Ok(())
}

// LDM.
pub(crate) fn store_number(parts: &mut Parts, view: &View) -> Result<(), Fault>
    ensures { after result parts.new ≡ number_stored parts.old (seen view.now) }
{
    let byte = parts.fetch(view)?;
    parts.store(view, Place::Dp, byte)
}

// Shifts, INC and DEC.
pub(crate) fn shift(
    parts: &mut Parts,
    view: &View,
    op: ShiftOp,
    target: Target,
) -> Result<(), Fault>
    ensures { after result parts.new ≡ shifted_at parts.old (seen view.now) op target }
{
    match target {
        Target::A => {
            parts.registers.shift_a(op);
            Ok(())
        }
        Target::Index(index) => {
            parts.registers.shift_index(op, index);
            Ok(())
        }
        Target::At(place) => {
            let address = parts.address_of(view, place)?;
            let old = parts.read(view, address)?;
            let v = parts.registers.shift(op, old);
            parts.write(view.pc, address, v)
        }
    }
}

fn with_bit(v: u8, bit: Bit, on: bool) -> u8
    ensures { result ≡ with_mask v bit on }
{
    let mask = bit.mask();
    if on { v | mask } else { v & !mask }
}

// SET1 and CLR1. As in `shift`, the byte's change stands between its read and its write: a closure for it would need a longer contract.
pub(crate) fn put_bit(parts: &mut Parts, view: &View, bit: Bit, on: bool) -> Result<(), Fault>
    ensures { after result parts.new ≡ bit_put parts.old (seen view.now) bit on }
{
    let address = parts.address_of(view, Place::Dp)?;
    let old = parts.read(view, address)?;
    let v = with_bit(old, bit, on);
    parts.write(view.pc, address, v)
}

// PUSH.
pub(crate) fn push(parts: &mut Parts, pc: u16, what: Saved) -> Result<(), Fault>
    ensures { after result parts.new ≡ pushed_saved parts.old pc what }
{
    let byte = parts.registers.saved(what);
    parts.push(pc, byte)
}

// POP.
pub(crate) fn pop(parts: &mut Parts, pc: u16, what: Saved) -> Result<(), Fault>
    ensures { after result parts.new ≡ popped_saved parts.old pc what }
{
    let v = parts.pull(pc)?;
    parts.registers.restore(what, v);
    Ok(())
}
