ghost use Rattle.std.specs.Prelude.{◌≡◌, ◌≢◌};
ghost use Rattle.capi.specs.Refusals.{number_of};

use faults::Fault;

// Why an experiment is not played: its description is not a good one, a buffer is too small, or a host is refused.
#[derive(Clone, Copy, PartialEq, Eq, Debug)]
pub enum Refusal {
    BadDescription,
    SmallBuffer,
    Host(Fault),
}

impl Refusal {
    // The number that C sees, which is never 0.
    pub(crate) fn number(self) -> u32
        ensures value { result ≡ number_of self }
        ensures refuses { result ≢ 0 }
    {
        match self {
            Refusal::BadDescription => 100,
            Refusal::SmallBuffer => 101,
            Refusal::Host(fault) => fault.number() as u32,
        }
    }
}

impl From<Fault> for Refusal {
    ghost use Rattle.capi.specs.declared.refusal.Refusal.TheVariants.{Host};

    ghost from_gives = { λ f r. r ≡ Host f };

    fn from(fault: Fault) -> Refusal {
        Refusal::Host(fault)
    }
}
