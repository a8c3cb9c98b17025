ghost use Rattle.std.specs.Prelude.{◌≡◌, ◌<◌, ◌^◌};
ghost use Rattle.ports.specs.Ports.{bit_of};
ghost use Rattle.ports.specs.Edges.{falls, rises, selected, pin_edge, ec0_rises, edges_of};

use crate::bits::has_bit;
use crate::port::Ports;

// A pin that can ask for an interrupt: its bit of the host's words, and the bit of RBFUNC that lets it in.
#[derive(Clone, Copy)]
struct Inlet {
    pin: u32,
    rbfunc: u32,
}

// INT0 is RB2, and INT0I lets it in.
const INT0: Inlet = Inlet { pin: 10, rbfunc: 2 };

// INT1 is RB3, and INT1I lets it in.
const INT1: Inlet = Inlet { pin: 11, rbfunc: 3 };

// EC0 is RA0.
const RA0: u32 = 0;

// The edges of a tick.
#[derive(Clone, Copy, PartialEq, Eq, Debug)]
pub struct Edges {
    pub int0: bool,
    pub int1: bool,
    pub ec0: bool,
}

// A pin's levels in the tick before and in a tick.
#[derive(Clone, Copy)]
struct Levels {
    before: bool,
    at: bool,
}

impl Levels {
    fn of(pin: u32, before: u16, at: u16) -> Levels
        requires { pin < 16 }
        ensures before { result.before ≡ bit_of (2 ^ pin) before }
        ensures at { result.at ≡ bit_of (2 ^ pin) at }
    {
        Levels {
            before: has_bit(before, pin),
            at: has_bit(at, pin),
        }
    }

    fn is_fall(self) -> bool
        ensures { result ≡ falls self.before self.at }
    {
        self.before && !self.at
    }

    fn is_rise(self) -> bool
        ensures { result ≡ rises self.before self.at }
    {
        !self.before && self.at
    }

    // Whether they make an edge that a pair of bits of IEDS selects.
    fn is_selected(self, pair: u8) -> bool
        ensures { result ≡ selected pair self.before self.at }
    {
        has_bit(pair.into(), 0) && self.is_fall() || has_bit(pair.into(), 1) && self.is_rise()
    }
}

impl Inlet {
    // Whether the pin is let in, and has an edge that a pair of bits of IEDS selects.
    fn has_edge(self, ports: &Ports, pair: u8, before: u16, at: u16) -> bool
        requires pin { self.pin < 16 }
        requires rbfunc { self.rbfunc < 16 }
        ensures { result ≡ pin_edge (2 ^ self.rbfunc) (2 ^ self.pin) ports.now pair before at }
    {
        has_bit(ports.rbfunc.into(), self.rbfunc)
            && Levels::of(self.pin, before, at).is_selected(pair)
    }
}

// EC0 is RA0, while its direction is 0.
fn is_ec0(ports: &Ports, before: u16, at: u16) -> bool
    ensures { result ≡ ec0_rises ports.now before at }
{
    !has_bit(ports.raio.into(), RA0) && Levels::of(RA0, before, at).is_rise()
}

impl Edges {
    // The edges between the host's words of the tick before and of a tick.
    pub fn between(ports: &Ports, ieds: u8, before: u16, at: u16) -> Edges
        ensures { result ≡ edges_of ports.now ieds before at }
    {
        Edges {
            int0: INT0.has_edge(ports, ieds, before, at),
            int1: INT1.has_edge(ports, ieds >> 2, before, at),
            ec0: is_ec0(ports, before, at),
        }
    }
}
