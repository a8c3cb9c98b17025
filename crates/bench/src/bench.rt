use crate::held::Held;
use recorder::mode::Mode;
use recorder::pin_sample::PinSample;
use recorder::stretch::Stretch;

// A chip on the bench: its record, and the two charts that its run call was lent. `Ready` is no ghost field, since between the
// writes of a tick, to one chart, to the other and to the record, the charts are ahead of the record.
#[derive(Drop)]
pub(crate) struct Bench<'a> {
    pub(crate) held: Held,
    pub(crate) pins: &'a mut [Stretch<PinSample>],
    pub(crate) modes: &'a mut [Stretch<Mode>],
}
