use faults::Fault;
use hosts::host::{HORIZON, PinHost};
use hosts::pulse::Pulse;
use hosts::pulses::PulseList;
use hosts::wave::SquareWave;
use std::test::Fail;

fn pulse(offset: u64, length: u64) -> Pulse {
    Pulse { offset, length }
}

// The number of the bad pair that a list of two pulses is refused for.
fn bad_pair(first: Pulse, second: Pulse) -> Option<u16> {
    let pulses = [first, second];
    let mut list = PulseList::new();
    match list.set(1, &pulses) {
        Err(Fault::BadPulseList { pair }) => Some(pair),
        _ => None,
    }
}

#[test]
fn pairs(rt: HostRuntime) {
    assert_eq!(rt; bad_pair(pulse(4, 2), pulse(7, 1)), None);
    assert_eq!(rt; bad_pair(pulse(4, 2), pulse(6, 1)), Some(1));
    assert_eq!(rt; bad_pair(pulse(4, 2), pulse(5, 1)), Some(1));
    assert_eq!(rt; bad_pair(pulse(4, 0), pulse(5, 1)), Some(0));
    assert_eq!(rt; bad_pair(pulse(4, 1), pulse(6, 0)), Some(1));
    assert_eq!(rt; bad_pair(pulse(0, 1), pulse(HORIZON - 1, 1)), None);
    assert_eq!(rt; bad_pair(pulse(0, 1), pulse(HORIZON - 1, 2)), Some(1));
    assert_eq!(rt; bad_pair(pulse(0, 1), pulse(u64::MAX, u64::MAX)), Some(1));
}

// What a list of so many pulses is refused for.
fn long_list(rt: &HostRuntime, n: u64) -> Result<Option<Fault>, Fail> {
    let mut pulses = Vec::new(rt.alloc());
    for i in 0..n {
        pulses.push(pulse(i.saturating_mul(2), 1))?;
    }
    let mut list = PulseList::new();
    Ok(list.set(1, pulses.as_slice()).err())
}

#[test]
fn long_lists(rt: HostRuntime) -> Result<(), Fail> {
    assert_eq!(rt; long_list(&rt, 4096)?, None);
    assert_eq!(rt;
        long_list(&rt, 4097)?,
        Some(Fault::BadPulseList { pair: 4096 })
    );
    Ok(())
}

#[test]
fn refused_list_stays_out(rt: HostRuntime) {
    let old = [pulse(4, 2), pulse(7, 1)];
    let bad = [pulse(1, 0)];
    let mut list = PulseList::new();
    assert_eq!(rt; list.set(0xffff, &old), Ok(()));
    assert_eq!(rt; list.set(1, &bad), Err(Fault::BadPulseList { pair: 0 }));
    assert_eq!(rt; list.levels(5), 0x7fff);
    assert_eq!(rt; list.levels(6), 0);
    assert_eq!(rt; list.quiet_mark(0), Some(4));
}

// Whether a wave of these times is refused, and with the fault that it should be.
fn out_of_range(low: u64, high: u64) -> bool {
    matches!(SquareWave::new(1, low, high), Err(Fault::WaveOutOfRange))
}

#[test]
fn wave_ranges(rt: HostRuntime) {
    let longest = 1 << 20;
    assert!(rt; !out_of_range(1, longest));
    assert!(rt; !out_of_range(longest, 1));
    assert!(rt; out_of_range(0, 1));
    assert!(rt; out_of_range(1, 0));
    assert!(rt; out_of_range(longest + 1, 1));
    assert!(rt; out_of_range(1, longest + 1));
}
