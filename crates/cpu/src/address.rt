ghost use Rattle.std.specs.Prelude.{◌≡◌};
ghost use Rattle.cpu.specs.State.{advanced, jumped, pushed, pulled, direct_of};

use crate::registers::Registers;

impl Registers {
    // The address in PC, which then moves on by 1.
    pub fn advance(&mut self) -> u16
        ensures { (self.new, result) ≡ advanced self.old }
    {
        let address = self.pc;
        self.pc = address.wrapping_add(1);
        address
    }

    // Moves PC, which is at the next code, by a signed distance.
    pub fn jump_by(&mut self, rel: u8)
        ensures { self.new ≡ jumped self.old rel }
    {
        self.pc = self.pc.wrapping_add_signed(i16::from(rel.cast_signed()));
    }

    // The address that a push stores at; SP is lowered then.
    pub fn push_address(&mut self) -> u8
        ensures { (self.new, result) ≡ pushed self.old }
    {
        let address = self.sp;
        self.sp = address.wrapping_sub(1);
        address
    }

    // The address that a pull reads from; SP is raised first.
    pub fn pull_address(&mut self) -> u8
        ensures { (self.new, result) ≡ pulled self.old }
    {
        self.sp = self.sp.wrapping_add(1);
        self.sp
    }

    // A direct address: in page 1 under G, else in page 0.
    pub fn direct(&self, byte: u8) -> u16
        ensures { result ≡ direct_of self.now byte }
    {
        let page = u8::from(self.flags.g);
        u16::from_be_bytes([page, byte])
    }
}
