use bus::parts::Parts;
use ports::request::Interrupt;

// The chip without its tick number: its parts, the ticks that are owed for what took effect, and the prescaler. That it is
// sound (`Sound`) is no ghost field, which would ask more of whoever builds one.
#[derive(Clone, Copy, PartialEq, Eq, Debug)]
pub struct Machine {
    pub parts: Parts,
    pub owed: u8,
    pub prescaler: u16,
}

// What the first step of a tick does.
#[derive(Clone, Copy, PartialEq, Eq, Debug)]
pub enum Action {
    Rest,
    Accept(Interrupt),
    Execute,
}
