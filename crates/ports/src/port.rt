ghost use Rattle.std.specs.Prelude.{◌≡◌};
ghost use Rattle.ports.specs.Ports.{word_of, latches, directions, merged, ports_read, rb1_and4, sampled, ports_reset};

use crate::bits::has_bit;
use recorder::pin_sample::PinSample;

// Where the pins of RB and RC begin in a pin word.
const RB0: u32 = 8;

const RC0: u32 = 13;

// The pins that the buzzer and COMP can be given, by their bits in a pin word.
const RB1: u32 = 9;

const RB4: u32 = 12;

// The bits of RBFUNC that give them.
const BUZO: u32 = 1;

const PWMO: u32 = 4;

// Latches, directions (1 is out) and function registers.
#[derive(Clone, Copy, PartialEq, Eq, Default, Debug)]
pub struct Ports {
    pub ra: u8,
    pub rb: u8,
    pub rc: u8,
    pub raio: u8,
    pub rbio: u8,
    pub rcio: u8,
    pub rafunc: u8,
    pub rbfunc: u8,
    pub pupsel: u8,
}

// Eight pins of RA, five of RB and two of RC in one word.
fn word(ra: u8, rb: u8, rc: u8) -> u16
    ensures { result ≡ word_of ra rb rc }
{
    u16::from(ra) | u16::from(rb % 32) << RB0 | u16::from(rc % 4) << RC0
}

// The bits of `out` where those of `which` are 1, and the host's elsewhere.
fn merge(which: u16, out: u16, host: u16) -> u16
    ensures { result ≡ merged which out host }
{
    which & out | !which & host
}

// A word with RB1 and RB4.
fn rb1_and_4(one: bool, four: bool) -> u16
    ensures { result ≡ rb1_and4 one four }
{
    u16::from(one) << RB1 | u16::from(four) << RB4
}

impl Ports {
    // What the ports read before a host: latch or host by direction.
    pub fn read(&self, host: u16) -> u16
        ensures { result ≡ ports_read self.now host }
    {
        merge(self.directions(), self.latches(), host)
    }

    // The pin sample of a tick, from the host's word and the levels of the buzzer and COMP.
    pub fn sample(&self, host: u16, buzzer: bool, comp: bool) -> PinSample
        ensures { result ≡ sampled self.now host buzzer comp }
    {
        let given = rb1_and_4(
            has_bit(self.rbfunc.into(), BUZO),
            has_bit(self.rbfunc.into(), PWMO),
        );
        let drive = self.directions() | given;
        let driver = merge(given, rb1_and_4(buzzer, comp), self.latches());
        PinSample {
            levels: merge(drive, driver, host),
            drive,
        }
    }

    // A reset clears all but the latches.
    pub fn reset(&mut self)
        ensures { self.new ≡ ports_reset self.old }
    {
        *self = Ports {
            ra: self.ra,
            rb: self.rb,
            rc: self.rc,
            ..Ports::default()
        };
    }

    // One call of `word` for the latches and one for the directions, which differ in the fields alone.
    fn latches(&self) -> u16
        ensures { result ≡ latches self.now }
    {
        word(self.ra, self.rb, self.rc)
    }

    fn directions(&self) -> u16
        ensures { result ≡ directions self.now }
    {
        word(self.raio, self.rbio, self.rcio)
    }
}
