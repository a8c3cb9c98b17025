ghost use Rattle.std.specs.Prelude.{◌≡◌, ◌<◌, if◌then◌else◌};
ghost use Rattle.ports.specs.Requests.{requests_reset, asks, in_high, bit_number, mask_of, pending, wakes, vector_of, accepted, noted};

use crate::bits::has_bit;

// What asks for the chip's attention.
#[derive(Clone, Copy, PartialEq, Eq, Debug)]
pub enum Interrupt {
    Int0,
    Int1,
    Timer0,
    Timer1,
    Converter,
    Watchdog,
    Basic,
}

// What a tick did that sets requests.
#[derive(Clone, Copy, PartialEq, Eq, Debug)]
pub struct Events {
    pub int0: bool,
    pub int1: bool,
    pub timer0: bool,
    pub timer1: bool,
    pub watchdog: bool,
    pub basic: bool,
}

// IENH, IENL, IRQH, IRQL and IEDS.
#[derive(Clone, Copy, PartialEq, Eq, Default, Debug)]
pub struct Requests {
    pub ienh: u8,
    pub ienl: u8,
    pub irqh: u8,
    pub irql: u8,
    pub ieds: u8,
}

// The enabled requests that wake the chip.
const WAKING: u8 = 0xe0;

// The order in which pending interrupts are taken.
const ORDER: [Interrupt; 7] = [
    Interrupt::Int0,
    Interrupt::Int1,
    Interrupt::Timer0,
    Interrupt::Timer1,
    Interrupt::Converter,
    Interrupt::Watchdog,
    Interrupt::Basic,
];

impl Interrupt {
    // Whether its bits are in IENH and IRQH, and not in IENL and IRQL.
    fn is_high(self) -> bool
        ensures { result ≡ in_high self }
    {
        match self {
            Interrupt::Int0 | Interrupt::Int1 | Interrupt::Timer0 | Interrupt::Timer1 => true,
            Interrupt::Converter | Interrupt::Watchdog | Interrupt::Basic => false,
        }
    }

    // The number of its bit in these.
    fn bit(self) -> u32
        ensures value { result ≡ bit_number self }
        ensures small { result < 8 }
    {
        match self {
            Interrupt::Int0 | Interrupt::Converter => 7,
            Interrupt::Int1 | Interrupt::Watchdog => 6,
            Interrupt::Timer0 | Interrupt::Basic => 5,
            Interrupt::Timer1 => 4,
        }
    }

    // The byte that has this bit alone.
    fn mask(self) -> u8
        ensures { result ≡ mask_of self }
    {
        1 << self.bit()
    }

    // Its bit where it asks, else 0.
    fn mask_if(self, asks: bool) -> u8
        ensures { result ≡ (if asks then mask_of self else 0) }
    {
        if asks { self.mask() } else { 0 }
    }

    // The address of the word that the program counter is taken from.
    pub fn vector(self) -> u16
        ensures { result ≡ vector_of self }
    {
        match self {
            Interrupt::Int0 => 0xfffa,
            Interrupt::Int1 => 0xfff8,
            Interrupt::Timer0 => 0xfff6,
            Interrupt::Timer1 => 0xfff4,
            Interrupt::Converter => 0xffea,
            Interrupt::Watchdog => 0xffe8,
            Interrupt::Basic => 0xffe6,
        }
    }
}

impl Requests {
    // Nothing enabled and nothing requested, as after a reset.
    pub fn new() -> Requests
        ensures { result ≡ requests_reset }
    {
        Requests::default()
    }

    // The first enabled request.
    pub fn first_pending(&self) -> Option<Interrupt>
        ensures { result ≡ pending self.now }
    {
        ORDER.iter().copied().find(|i| self.is_pending(*i))
    }

    // Whether it is requested and enabled.
    fn is_pending(&self, interrupt: Interrupt) -> bool
        ensures { result ≡ asks self.now interrupt }
    {
        let bits = if interrupt.is_high() {
            self.ienh & self.irqh
        } else {
            self.ienl & self.irql
        };
        has_bit(bits.into(), interrupt.bit())
    }

    // Whether an enabled request of INT0, INT1 or Timer 0 wakes the chip.
    pub fn is_waking(&self) -> bool
        ensures { result ≡ wakes self.now }
    {
        self.ienh & self.irqh & WAKING != 0
    }

    // Clears the request that is accepted.
    pub fn accept(&mut self, interrupt: Interrupt)
        ensures { self.new ≡ accepted interrupt self.old }
    {
        if interrupt.is_high() {
            self.irqh &= !interrupt.mask();
        } else {
            self.irql &= !interrupt.mask();
        }
    }

    // Sets the requests of a tick's events.
    pub fn note(&mut self, events: Events)
        ensures { self.new ≡ noted events self.old }
    {
        self.irqh |= Interrupt::Int0.mask_if(events.int0)
            | Interrupt::Int1.mask_if(events.int1)
            | Interrupt::Timer0.mask_if(events.timer0)
            | Interrupt::Timer1.mask_if(events.timer1);
        self.irql |= Interrupt::Watchdog.mask_if(events.watchdog)
            | Interrupt::Basic.mask_if(events.basic);
    }
}
