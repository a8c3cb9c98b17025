ghost use Rattle.std.specs.Prelude.{◌≡◌};
ghost use Rattle.bus.specs.Outcomes.{after};
ghost use Rattle.bus.specs.Seen.{seen};
ghost use Rattle.instructions.specs.Operations.{called_at, called, page_called, table_called, interrupted, broke, returned, returned_from_interrupt};

use bus::image::image_word;
use bus::parts::Parts;
use bus::view::View;
use faults::Fault;
use sheet::operation::FlagOp;

// TCALL 0's word, which BRK takes too; those of the others lie below it.
const TCALL0: u16 = 0xffde;

// The page of PCALL.
const PCALL: u16 = 0xff00;

// Pushes PC and goes to an address.
fn call_at(parts: &mut Parts, pc: u16, address: u16) -> Result<(), Fault>
    ensures { after result parts.new ≡ called_at parts.old pc address }
{
    parts.push_word(pc, parts.registers.pc)?;
    parts.registers.pc = address;
    Ok(())
}

pub(crate) fn call(parts: &mut Parts, view: &View) -> Result<(), Fault>
    ensures { after result parts.new ≡ called parts.old (seen view.now) }
{
    let address = parts.fetch_word(view)?;
    call_at(parts, view.pc, address)
}

pub(crate) fn page_call(parts: &mut Parts, view: &View) -> Result<(), Fault>
    ensures { after result parts.new ≡ page_called parts.old (seen view.now) }
{
    let u = parts.fetch(view)?;
    call_at(parts, view.pc, PCALL + u as u16)
}

pub(crate) fn table_call(parts: &mut Parts, view: &View, n: u8) -> Result<(), Fault>
    ensures { after result parts.new ≡ table_called parts.old (seen view.now) n }
{
    let address = image_word(view.image, TCALL0 - 2 * n as u16);
    call_at(parts, view.pc, address)
}

// Pushes PC and PSW, clears I, and goes to a vector's word. `pc` is what a fault names: there is no host's word, and so no `View`.
pub fn interrupt(parts: &mut Parts, image: &[u8], pc: u16, vector: u16) -> Result<(), Fault>
    ensures { after result parts.new ≡ interrupted parts.old image.now pc vector }
{
    parts.push_word(pc, parts.registers.pc)?;
    let psw = parts.registers.psw();
    parts.push(pc, psw)?;
    parts.registers.switch(FlagOp::Di);
    parts.registers.pc = image_word(image, vector);
    Ok(())
}

// BRK.
pub(crate) fn software_break(parts: &mut Parts, view: &View) -> Result<(), Fault>
    ensures { after result parts.new ≡ broke parts.old (seen view.now) }
{
    parts.registers.set_break();
    interrupt(parts, view.image, view.pc, TCALL0)
}

pub(crate) fn return_from_call(parts: &mut Parts, pc: u16) -> Result<(), Fault>
    ensures { after result parts.new ≡ returned parts.old pc }
{
    parts.registers.pc = parts.pull_word(pc)?;
    Ok(())
}

pub(crate) fn return_from_interrupt(parts: &mut Parts, pc: u16) -> Result<(), Fault>
    ensures { after result parts.new ≡ returned_from_interrupt parts.old pc }
{
    let psw = parts.pull(pc)?;
    let address = parts.pull_word(pc)?;
    parts.registers.set_psw(psw);
    parts.registers.pc = address;
    Ok(())
}
