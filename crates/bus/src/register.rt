ghost use Rattle.std.specs.Prelude.{◌≡◌};
ghost use Rattle.bus.specs.Outcomes.{after};
ghost use Rattle.bus.specs.Seen.{seen};
ghost use Rattle.bus.specs.Registers.{register_at, missing_modes, register_read, read_at, register_written, written_at};

use crate::image::{FIRST, image_at};
use crate::parts::Parts;
use crate::view::View;
use counters::buzzer::Buzzer;
use faults::Fault;

// The bits of TM0, TM1 and CKCTLR that set a mode that is not there: CAP0; 16BIT, PWME and CAP1; RCWDT.
const CAP0: u8 = 0x20;

const TM1_MODES: u8 = 0x70;

const RCWDT: u8 = 0x20;

// The bits of IENH and IRQH, and of IENL and IRQL.
const HIGH: u8 = 0xf0;

const LOW: u8 = 0xe0;

// The registers, by the data sheet's names. T0 is read where TDR0 is written, and BITR where CKCTLR is.
#[derive(Clone, Copy)]
pub enum Register {
    Ra,
    Raio,
    Rb,
    Rbio,
    Rc,
    Rcio,
    Rafunc,
    Rbfunc,
    Pupsel,
    Tm0,
    Tdr0,
    Tm1,
    Tdr1,
    T1,
    Bur,
    Ienh,
    Ienl,
    Irqh,
    Irql,
    Ieds,
    Ckctlr,
    Wdtr,
    Pfdr,
}

impl Register {
    // The register at an address.
    fn at(address: u16) -> Option<Self>
        ensures { result ≡ register_at address }
    {
        match address {
            0xc0 => Some(Register::Ra),
            0xc1 => Some(Register::Raio),
            0xc2 => Some(Register::Rb),
            0xc3 => Some(Register::Rbio),
            0xc4 => Some(Register::Rc),
            0xc5 => Some(Register::Rcio),
            0xca => Some(Register::Rafunc),
            0xcb => Some(Register::Rbfunc),
            0xcc => Some(Register::Pupsel),
            0xd0 => Some(Register::Tm0),
            0xd1 => Some(Register::Tdr0),
            0xd2 => Some(Register::Tm1),
            0xd3 => Some(Register::Tdr1),
            0xd4 => Some(Register::T1),
            0xde => Some(Register::Bur),
            0xe2 => Some(Register::Ienh),
            0xe3 => Some(Register::Ienl),
            0xe4 => Some(Register::Irqh),
            0xe5 => Some(Register::Irql),
            0xe6 => Some(Register::Ieds),
            0xec => Some(Register::Ckctlr),
            0xed => Some(Register::Wdtr),
            0xef => Some(Register::Pfdr),
            _ => None,
        }
    }

    // The bits that would set a mode that is not there.
    fn missing_modes(self) -> u8
        ensures { result ≡ missing_modes self }
    {
        match self {
            Register::Tm0 => CAP0,
            Register::Tm1 => TM1_MODES,
            Register::Ckctlr => RCWDT,
            _ => 0,
        }
    }
}

impl Parts {
    // A register as it is read before the host's word, unless it is write-only.
    fn load_register(&self, register: Register, host: u16) -> Option<u8>
        ensures { result ≡ register_read self.now host register }
    {
        match register {
            Register::Ra => Some((self.ports.read(host) % 256) as u8),
            Register::Rb => Some((self.ports.read(host) / 256 % 32) as u8),
            Register::Rc => Some((self.ports.read(host) / 8192 % 4) as u8),
            Register::Tm0 => Some(self.timers.pair[0].control),
            Register::Tdr0 => Some(self.timers.pair[0].count),
            Register::Tm1 => Some(self.timers.pair[1].control),
            Register::T1 => Some(self.timers.pair[1].count),
            Register::Ienh => Some(self.requests.ienh),
            Register::Ienl => Some(self.requests.ienl),
            Register::Irqh => Some(self.requests.irqh),
            Register::Irql => Some(self.requests.irql),
            Register::Ieds => Some(self.requests.ieds),
            Register::Ckctlr => Some(self.basic.bitr),
            Register::Wdtr => Some(self.basic.wdtr),
            Register::Pfdr => Some(self.pfdr),
            Register::Raio | Register::Rbio | Register::Rcio => None,
            Register::Rafunc | Register::Rbfunc | Register::Pupsel => None,
            Register::Tdr1 | Register::Bur => None,
        }
    }

    // The byte at an address.
    pub fn read(&self, view: &View, address: u16) -> Result<u8, Fault>
        ensures { result ≡ read_at self.now (seen view.now) address }
    {
        if let Some(byte) = self.memory.get(address) {
            return Ok(byte);
        }
        if address >= FIRST {
            return Ok(image_at(view.image, address));
        }
        let register = Register::at(address).ok_or(view.unoccupied(address))?;
        self.load_register(register, view.host)
            .ok_or(Fault::ReadOfWriteOnly {
                pc: view.pc,
                address,
            })
    }

    // Writes a register, unless it is read-only. Bits without a name are dropped.
    fn store_register(&mut self, register: Register, v: u8) -> Option<()>
        ensures { (self.new, result) ≡ register_written self.old register v }
    {
        match register {
            Register::Ra => self.ports.ra = v,
            Register::Raio => self.ports.raio = v,
            Register::Rb => self.ports.rb = v % 32,
            Register::Rbio => self.ports.rbio = v % 32,
            Register::Rc => self.ports.rc = v % 4,
            Register::Rcio => self.ports.rcio = v % 4,
            Register::Rafunc => self.ports.rafunc = v,
            Register::Rbfunc => self.ports.rbfunc = v % 32,
            Register::Pupsel => self.ports.pupsel = v % 4,
            Register::Tm0 => self.timers.pair[0].set_control(v % 64),
            Register::Tdr0 => self.timers.pair[0].limit = v,
            Register::Tm1 => self.timers.pair[1].set_control(v),
            Register::Tdr1 => self.timers.pair[1].limit = v,
            Register::T1 => return None,
            Register::Bur => self.buzzer = Buzzer::new(v),
            Register::Ienh => self.requests.ienh = v & HIGH,
            Register::Ienl => self.requests.ienl = v & LOW,
            Register::Irqh => self.requests.irqh = v & HIGH,
            Register::Irql => self.requests.irql = v & LOW,
            Register::Ieds => self.requests.ieds = v % 16,
            Register::Ckctlr => self.basic.set_control(v),
            Register::Wdtr => self.basic.set_watchdog(v),
            Register::Pfdr => self.pfdr = v % 8,
        }
        Some(())
    }

    // Writes a byte at an address.
    pub fn write(&mut self, pc: u16, address: u16, v: u8) -> Result<(), Fault>
        ensures { after result self.new ≡ written_at self.old pc address v }
    {
        if self.memory.set(address, v).is_some() {
            return Ok(());
        }
        if address >= FIRST {
            return Err(Fault::WriteToReadOnly { pc, address });
        }
        let register = Register::at(address).ok_or(Fault::Unoccupied { pc, address })?;
        if v & register.missing_modes() != 0 {
            return Err(Fault::UnsupportedMode { pc, address });
        }
        self.store_register(register, v)
            .ok_or(Fault::WriteToReadOnly { pc, address })
    }
}
