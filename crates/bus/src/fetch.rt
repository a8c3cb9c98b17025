ghost use Rattle.std.specs.Prelude.{◌≡◌};
ghost use Rattle.bus.specs.Outcomes.{after, outcome};
ghost use Rattle.bus.specs.Seen.{seen};
ghost use Rattle.bus.specs.Fetch.{fetched, word_fetched, pointer_at, addressed, operand_of, stored};

use crate::image::{FIRST, image_at};
use crate::parts::Parts;
use crate::view::View;
use faults::Fault;
use sheet::operation::{Operand, Place};

impl Parts {
    // The byte at PC, which moves on.
    pub fn fetch(&mut self, view: &View) -> Result<u8, Fault>
        ensures { outcome result self.new ≡ fetched self.old (seen view.now) }
    {
        let address = self.registers.advance();
        if address < FIRST {
            return Err(view.unoccupied(address));
        }
        Ok(image_at(view.image, address))
    }

    // A word, low byte first.
    pub fn fetch_word(&mut self, view: &View) -> Result<u16, Fault>
        ensures { outcome result self.new ≡ word_fetched self.old (seen view.now) }
    {
        let low = self.fetch(view)?;
        let high = self.fetch(view)?;
        Ok(u16::from_le_bytes([low, high]))
    }

    // The pointer at a direct address, low byte first.
    fn pointer_at(&self, view: &View, d: u8) -> Result<u16, Fault>
        ensures { result ≡ pointer_at self.now (seen view.now) d }
    {
        let low = self.read(view, self.registers.direct(d))?;
        let high = self.read(view, self.registers.direct(d.wrapping_add(1)))?;
        Ok(u16::from_le_bytes([low, high]))
    }

    // Where an operand is.
    pub fn address_of(&mut self, view: &View, place: Place) -> Result<u16, Fault>
        ensures { outcome result self.new ≡ addressed self.old (seen view.now) place }
    {
        match place {
            Place::Dp => {
                let d = self.fetch(view)?;
                Ok(self.registers.direct(d))
            }
            Place::DpX => {
                let d = self.fetch(view)?;
                Ok(self.registers.direct(d.wrapping_add(self.registers.x)))
            }
            Place::Abs => self.fetch_word(view),
            Place::AtX => Ok(self.registers.direct(self.registers.x)),
            Place::AbsY => {
                let w = self.fetch_word(view)?;
                Ok(w.wrapping_add(self.registers.y as u16))
            }
            Place::IndX => {
                let d = self.fetch(view)?;
                self.pointer_at(view, d.wrapping_add(self.registers.x))
            }
            Place::IndY => {
                let d = self.fetch(view)?;
                let w = self.pointer_at(view, d)?;
                Ok(w.wrapping_add(self.registers.y as u16))
            }
        }
    }

    // An operand that is read.
    pub fn operand(&mut self, view: &View, operand: Operand) -> Result<u8, Fault>
        ensures { outcome result self.new ≡ operand_of self.old (seen view.now) operand }
    {
        match operand {
            Operand::Imm => self.fetch(view),
            Operand::At(place) => {
                let address = self.address_of(view, place)?;
                self.read(view, address)
            }
        }
    }

    // Stores a byte at a place, which is not read.
    pub fn store(&mut self, view: &View, place: Place, byte: u8) -> Result<(), Fault>
        ensures { after result self.new ≡ stored self.old (seen view.now) place byte }
    {
        let address = self.address_of(view, place)?;
        self.write(view.pc, address, byte)
    }
}
