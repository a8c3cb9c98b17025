ghost use Rattle.std.specs.Prelude.{◌≡◌, ◌≤◌, true, IfOk};
ghost use Rattle.sheet.specs.Sound.{is_branch, Sound};
ghost use Rattle.bus.specs.Outcomes.{outcome};
ghost use Rattle.bus.specs.Seen.{seen};
ghost use Rattle.instructions.specs.Operations.{sleep_mode};
ghost use Rattle.instructions.specs.Execute.{executed, ticks_of, instructed};

use crate::branch::branch;
use crate::call::{
    call, page_call, return_from_call, return_from_interrupt, software_break, table_call,
};
use crate::memory::{calculate, compare, load, pop, push, put_bit, shift, store_number};
use bus::parts::Parts;
use bus::view::View;
use faults::Fault;
use recorder::mode::Mode;
use sheet::operation::{AluOp, Operand, Operation, Place};
use sheet::table::{Entry, entry_of};

// WAKEUP of CKCTLR.
const WAKEUP: u8 = 0x40;

// The mode that STOP gives.
fn sleep_mode(parts: &Parts) -> Mode
    ensures { result ≡ sleep_mode parts.now }
{
    if parts.basic.control & WAKEUP != 0 {
        Mode::WakeUpTimer
    } else {
        Mode::Stopped
    }
}

// What an operation does once its code is fetched; the answer is whether its branch was taken.
fn execute(parts: &mut Parts, view: &View, operation: Operation) -> Result<bool, Fault>
    ensures value { outcome result parts.new ≡ executed parts.old (seen view.now) operation }
    ensures branches { IfOk result (λ t. t ≡ true → is_branch operation ≡ true) }
{
    match operation {
        Operation::Unlisted => return Err(Fault::NotOnSheet { pc: view.pc }),
        Operation::Flag(op) => parts.registers.switch(op),
        Operation::Set1(bit) => put_bit(parts, view, bit, true)?,
        Operation::Clr1(bit) => put_bit(parts, view, bit, false)?,
        Operation::Branch(b) => return branch(parts, view, b),
        Operation::Alu(op, operand) => calculate(parts, view, op, operand)?,
        Operation::Sta(place) => parts.store(view, place, parts.registers.a)?,
        Operation::LdaNext => {
            calculate(parts, view, AluOp::Lda, Operand::At(Place::AtX))?;
            parts.registers.raise_x();
        }
        Operation::StaNext => {
            parts.store(view, Place::AtX, parts.registers.a)?;
            parts.registers.raise_x();
        }
        Operation::Ldm => store_number(parts, view)?,
        Operation::Shift(op, target) => shift(parts, view, op, target)?,
        Operation::Transfer(way) => parts.registers.transfer(way),
        Operation::Load(index, operand) => load(parts, view, index, operand)?,
        Operation::Compare(index, operand) => compare(parts, view, index, operand)?,
        Operation::Store(index, place) => {
            let byte = parts.registers.index(index);
            parts.store(view, place, byte)?;
        }
        Operation::Push(what) => push(parts, view.pc, what)?,
        Operation::Pop(what) => pop(parts, view.pc, what)?,
        Operation::Tcall(n) => table_call(parts, view, n)?,
        Operation::Pcall => page_call(parts, view)?,
        Operation::Call => call(parts, view)?,
        Operation::Jmp => {
            parts.registers.pc = parts.fetch_word(view)?;
        }
        Operation::Bra => {
            let rel = parts.fetch(view)?;
            parts.registers.jump_by(rel);
        }
        Operation::Brk => software_break(parts, view)?,
        Operation::Ret => return_from_call(parts, view.pc)?,
        Operation::Reti => return_from_interrupt(parts, view.pc)?,
        Operation::Stop => {
            parts.mode = sleep_mode(parts);
        }
        Operation::Nop => {}
    }
    Ok(false)
}

// Two ticks for each cycle, and two cycles more for a branch that is taken.
fn ticks_of(entry: Entry, taken: bool) -> u8
    requires sound { Sound entry }
    requires branches { taken ≡ true → is_branch entry.operation ≡ true }
    ensures value { result ≡ ticks_of entry taken }
    ensures few { result ≤ 16 }
{
    if taken {
        2 * entry.cycles + 4
    } else {
        2 * entry.cycles
    }
}

// The next instruction, whole; the answer is the ticks that it takes.
pub fn instruct(parts: &mut Parts, image: &[u8], host: u16) -> Result<u8, Fault>
    ensures value { outcome result parts.new ≡ instructed parts.old image.now host }
    ensures few { IfOk result (λ n. n ≤ 16) }
{
    let view = View {
        image,
        host,
        pc: parts.registers.pc,
    };
    let code = parts.fetch(&view)?;
    let entry = entry_of(code);
    let taken = execute(parts, &view, entry.operation)?;
    Ok(ticks_of(entry, taken))
}
