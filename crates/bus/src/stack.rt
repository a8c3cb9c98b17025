ghost use Rattle.std.specs.Prelude.{◌≡◌};
ghost use Rattle.bus.specs.Outcomes.{after, outcome};
ghost use Rattle.bus.specs.Fetch.{byte_pushed, byte_pulled, word_pushed, word_pulled};

use crate::parts::Parts;
use faults::Fault;

// The stack lies in RAM.
impl Parts {
    // Stores a byte at SP, and lowers it.
    pub fn push(&mut self, pc: u16, v: u8) -> Result<(), Fault>
        ensures { after result self.new ≡ byte_pushed self.old pc v }
    {
        let address = self.registers.push_address() as u16;
        self.memory
            .set(address, v)
            .ok_or(Fault::Unoccupied { pc, address })
    }

    // Raises SP, and reads the byte there.
    pub fn pull(&mut self, pc: u16) -> Result<u8, Fault>
        ensures { outcome result self.new ≡ byte_pulled self.old pc }
    {
        let address = self.registers.pull_address() as u16;
        self.memory
            .get(address)
            .ok_or(Fault::Unoccupied { pc, address })
    }

    // A word, high byte first.
    pub fn push_word(&mut self, pc: u16, w: u16) -> Result<(), Fault>
        ensures { after result self.new ≡ word_pushed self.old pc w }
    {
        let [high, low] = w.to_be_bytes();
        self.push(pc, high)?;
        self.push(pc, low)
    }

    // A word, low byte first.
    pub fn pull_word(&mut self, pc: u16) -> Result<u16, Fault>
        ensures { outcome result self.new ≡ word_pulled self.old pc }
    {
        let low = self.pull(pc)?;
        let high = self.pull(pc)?;
        Ok(u16::from_le_bytes([low, high]))
    }
}
