ghost use Rattle.std.specs.Prelude.{◌≡◌};

use faults::Fault;

// What the chip sees beside its parts: the image, the host's word, and the program counter that a fault names.
#[derive(Clone, Copy)]
pub struct View<'a> {
    pub image: &'a [u8],
    pub host: u16,
    pub pc: u16,
}

impl View<'_> {
    // The fault of an address where nothing is.
    pub(crate) fn unoccupied(&self, address: u16) -> Fault
        ensures { result ≡ Fault.Unoccupied self.now.pc address }
    {
        Fault::Unoccupied {
            pc: self.pc,
            address,
        }
    }
}
