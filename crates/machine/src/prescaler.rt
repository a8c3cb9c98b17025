ghost use Rattle.std.specs.Prelude.{◌≡◌};
ghost use Rattle.machine.specs.Tick.{prescaler_moved};

use recorder::mode::Mode;

// The prescaler counts modulo this.
const PRESCALER: u16 = 2048;

// The prescaler after `ticks` ticks in a mode.
pub(crate) fn run_prescaler(mode: Mode, prescaler: u16, ticks: u64) -> u16
    ensures { result ≡ prescaler_moved mode prescaler ticks }
{
    match mode {
        Mode::Running | Mode::WakeUpTimer => {
            (prescaler % PRESCALER + (ticks % PRESCALER as u64) as u16) % PRESCALER
        }
        Mode::Stopped => prescaler,
    }
}
