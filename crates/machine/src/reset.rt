ghost use Rattle.std.specs.Prelude.{◌≡◌};
ghost use Rattle.machine.specs.Tick.{reset_machine};

use crate::state::Machine;
use bus::image::image_word;
use counters::basic::BasicTimer;
use counters::buzzer::Buzzer;
use counters::timer::Timers;
use ports::request::Requests;
use recorder::mode::Mode;

// The reset vector, and what BUR and PFDR hold after a reset.
const RESET: u16 = 0xfffe;

const BUR: u8 = 0xff;

const PFDR: u8 = 4;

impl Machine {
    // A reset. RAM, A, X, Y, SP and the latches stay.
    pub fn reset(&mut self, image: &[u8])
        ensures { self.new ≡ reset_machine self.old.parts image.now }
    {
        self.parts.registers.set_psw(0);
        self.parts.registers.pc = image_word(image, RESET);
        self.parts.ports.reset();
        self.parts.timers = Timers::new();
        self.parts.buzzer = Buzzer::new(BUR);
        self.parts.basic = BasicTimer::new();
        self.parts.requests = Requests::new();
        self.parts.pfdr = PFDR;
        self.parts.mode = Mode::Running;
        self.owed = 0;
        self.prescaler = 0;
    }
}
