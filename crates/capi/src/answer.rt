ghost use Rattle.std.specs.Prelude.{◌≡◌, Option};
ghost use Rattle.capi.specs.Answers.{place_of};

use bench::run::Run;

// What stands for no pc and no address.
const NOWHERE: u32 = 65536;

// What a call answered: ticks, the fault's number or 0, and its pc and address, 65,536 where it names none.
#[repr(C)]
#[derive(Clone, Copy, PartialEq, Eq, Debug)]
pub struct Answer {
    pub ticks: u64,
    pub number: u32,
    pub pc: u32,
    pub address: u32,
}

fn place_of(named: Option<u16>) -> u32
    ensures { result ≡ place_of named }
{
    named.map_or(NOWHERE, u32::from)
}

impl From<Run> for Answer {
    ghost use Rattle.std.specs.Prelude.{◌≡◌};
    ghost use Rattle.capi.specs.Answers.{answer_of};

    ghost from_gives = { λ run a. a ≡ answer_of run.ticks run.fault };

    fn from(run: Run) -> Answer {
        Answer {
            ticks: run.ticks,
            number: run.fault.map_or(0, |fault| fault.number() as u32),
            pc: place_of(run.fault.and_then(|fault| fault.pc())),
            address: place_of(run.fault.and_then(|fault| fault.address())),
        }
    }
}
