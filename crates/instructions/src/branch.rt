ghost use Rattle.std.specs.Prelude.{◌≡◌};
ghost use Rattle.bus.specs.Outcomes.{outcome};
ghost use Rattle.bus.specs.Seen.{seen};
ghost use Rattle.instructions.specs.Operations.{has_mask, jumped_if, branched, branched_on};

use bus::parts::Parts;
use bus::view::View;
use faults::Fault;
use sheet::operation::{Bit, Branch, Place};

fn has_bit(v: u8, bit: Bit) -> bool
    ensures { result ≡ has_mask v bit }
{
    v & bit.mask() != 0
}

// Goes to a distance from the next code if the branch is taken, and answers whether it was.
fn jump_if(parts: &mut Parts, rel: u8, taken: bool) -> bool
    ensures { (parts.new, result) ≡ jumped_if parts.old rel taken }
{
    if taken {
        parts.registers.jump_by(rel);
    }
    taken
}

// Fetches the distance, and goes there if the branch is taken.
fn branch_if(parts: &mut Parts, view: &View, taken: bool) -> Result<bool, Fault>
    ensures { outcome result parts.new ≡ branched parts.old (seen view.now) taken }
{
    let rel = parts.fetch(view)?;
    Ok(jump_if(parts, rel, taken))
}

// BBS and BBC on dp.
fn branch_on_bit(parts: &mut Parts, view: &View, bit: Bit, on: bool) -> Result<bool, Fault>
    ensures { outcome result parts.new ≡ branched_on parts.old (seen view.now) (Branch.BitOfDp bit on) }
{
    let address = parts.address_of(view, Place::Dp)?;
    let rel = parts.fetch(view)?;
    let v = parts.read(view, address)?;
    let is = has_bit(v, bit);
    Ok(jump_if(parts, rel, is == on))
}

// DBNE on dp.
fn count_down(parts: &mut Parts, view: &View) -> Result<bool, Fault>
    ensures { outcome result parts.new ≡ branched_on parts.old (seen view.now) Branch.DbneDp }
{
    let address = parts.address_of(view, Place::Dp)?;
    let rel = parts.fetch(view)?;
    let old = parts.read(view, address)?;
    let v = old.wrapping_sub(1);
    parts.write(view.pc, address, v)?;
    Ok(jump_if(parts, rel, v != 0))
}

// A branch on a condition; the answer is whether it was taken.
pub(crate) fn branch(parts: &mut Parts, view: &View, branch: Branch) -> Result<bool, Fault>
    ensures { outcome result parts.new ≡ branched_on parts.old (seen view.now) branch }
{
    match branch {
        Branch::BitOfA(bit, on) => {
            let is = has_bit(parts.registers.a, bit);
            branch_if(parts, view, is == on)
        }
        Branch::BitOfDp(bit, on) => branch_on_bit(parts, view, bit, on),
        Branch::Flag(flag, on) => {
            let taken = parts.registers.flag_is(flag, on);
            branch_if(parts, view, taken)
        }
        Branch::DbneDp => count_down(parts, view),
        Branch::DbneY => {
            let taken = parts.registers.lower_y();
            branch_if(parts, view, taken)
        }
    }
}
