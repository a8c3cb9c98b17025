ghost use Rattle.std.specs.Prelude.{◌≡◌};
ghost use Rattle.bus.specs.Ram.{byte_at, with_byte};

use counters::basic::BasicTimer;
use counters::buzzer::Buzzer;
use counters::timer::Timers;
use cpu::registers::Registers;
use ports::port::Ports;
use ports::request::Requests;
use recorder::mode::Mode;

// RAM, 0000 to 007F.
#[derive(Clone, Copy, PartialEq, Eq, Debug)]
pub struct Memory {
    pub ram: [u8; 128],
}

impl Memory {
    // The byte at an address, if it is in RAM.
    pub(crate) fn get(&self, address: u16) -> Option<u8>
        ensures { result ≡ byte_at self.now address }
    {
        self.ram.get(address as usize).copied()
    }

    // Stores a byte at an address, if it is in RAM.
    pub(crate) fn set(&mut self, address: u16, byte: u8) -> Option<()>
        ensures { (self.new, result) ≡ with_byte self.old address byte }
    {
        let place = address as usize;
        if place >= self.ram.len() {
            return None;
        }
        // After `get_mut` of an array a proof knows nothing of its elements.
        self.ram[place] = byte;
        Some(())
    }
}

// What an instruction can change. PFDR is a register with no effect here.
#[derive(Clone, Copy, PartialEq, Eq, Debug)]
pub struct Parts {
    pub registers: Registers,
    pub memory: Memory,
    pub ports: Ports,
    pub timers: Timers,
    pub buzzer: Buzzer,
    pub basic: BasicTimer,
    pub requests: Requests,
    pub pfdr: u8,
    pub mode: Mode,
}
