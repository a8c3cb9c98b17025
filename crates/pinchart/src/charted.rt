ghost use Rattle.std.specs.Prelude.{◌≡◌, Some};
ghost use Rattle.pinchart.specs.Walks.{reached};

use faults::Fault;

// How far a chart of recorded pins came: the ticks and stretches it has, and why it stopped. No `Result`, since a chart that
// stopped has both.
#[derive(Clone, Copy, PartialEq, Eq, Default, Debug)]
pub struct Charted {
    pub ticks: u64,
    pub count: usize,
    pub fault: Option<Fault>,
}

impl Charted {
    // Nothing charted, because of a fault.
    pub(crate) fn refused(fault: Fault) -> Self
        ensures { result ≡ reached 0 0 (Some fault) }
    {
        Charted {
            fault: Some(fault),
            ..Charted::default()
        }
    }
}
