ghost use Rattle.std.specs.Prelude.{Some, ◌≤◌, length, map};
ghost use Rattle.vcd.specs.Signals.{first_id, suffix};
ghost use Rattle.vcd.specs.Headers.{var_lines, header_of};

use crate::signal::Signal;
use std::fmt;

// The pins' names, from bit 0 on.
const PIN_NAMES: [&str; 15] = [
    "RA0", "RA1", "RA2", "RA3", "RA4", "RA5", "RA6", "RA7", "RB0", "RB1", "RB2", "RB3", "RB4",
    "RC0", "RC1",
];

// What stands above the variables.
const START: &str =
    "$comment one time unit is one tick $end\n$timescale 1 ns $end\n$scope module chip $end\n";

// What stands below those of the pins.
const END: &str = "$var wire 8 m mode $end\n$upscope $end\n$enddefinitions $end\n";

// The declarations of a signal's variables, for pins of these names.
#[derive(Clone, Copy)]
struct Variables<'a> {
    signal: Signal,
    names: &'a [&'static str],
    ghost few: { length names.now ≤ 15 },
}

impl fmt::Display for Variables<'_> {
    ghost output = { λ v. Some (var_lines (first_id v.signal) (suffix v.signal) (map (λ name. name.now) v.names.now)) };

    fn fmt<W: fmt::Write>(&self, f: &mut fmt::Formatter<W>) -> fmt::Result {
        let suffix = self.signal.suffix();
        for (pin, name) in self.names.iter().enumerate() {
            let id = self.signal.id(pin as u8);
            writeln!(f, "$var wire 1 {id} {name}{suffix} $end")?;
        }
        Ok(())
    }
}

// The part above the values: the time unit and the variables.
#[derive(Clone, Copy)]
pub(crate) struct Header;

impl fmt::Display for Header {
    ghost output = { λ _. Some header_of };

    fn fmt<W: fmt::Write>(&self, f: &mut fmt::Formatter<W>) -> fmt::Result {
        let levels = Variables {
            signal: Signal::Level,
            names: &PIN_NAMES,
        };
        let drives = Variables {
            signal: Signal::Drive,
            names: &PIN_NAMES,
        };
        write!(f, "{START}{levels}{drives}{END}")
    }
}
