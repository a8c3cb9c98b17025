use crate::host::PinHost;

// A host by reference, so that one can be joined without being given away.
impl<P: PinHost> PinHost for &P {
    ghost meaning = { λ s. P.PinHost.meaning s.now };

    ghost mark = { λ s. P.PinHost.mark s.now };

    ghost words = { λ s t. P.PinHost.words s.now t };

    fn levels(&self, t: u64) -> u16 {
        (**self).levels(t)
    }

    fn quiet_mark(&self, t: u64) -> Option<u64> {
        (**self).quiet_mark(t)
    }
}
