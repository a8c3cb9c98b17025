use faults::Fault;
use recorder::append::append;
use recorder::lines::{line, outcome_line};
use recorder::mode::Mode;
use recorder::pin_sample::PinSample;
use recorder::stretch::Stretch;

#[test]
fn pin_and_mode_lines(rt: HostRuntime) {
    let mut buffer = [7u8; 64];
    let pins = Stretch {
        offset: 0,
        length: 16,
        sample: PinSample {
            levels: 0,
            drive: 0x2ab,
        },
    };
    assert_eq!(rt; line(&pins, &mut buffer), Ok(17));
    assert_eq!(rt; &buffer[0..18], b"P 0 16 0000 02AB\n\x07".as_slice());
    let mode = Stretch {
        offset: u64::MAX,
        length: u64::MAX,
        sample: Mode::WakeUpTimer,
    };
    assert_eq!(rt; line(&mode, &mut buffer), Ok(46));
    assert_eq!(rt;
        &buffer[0..46],
        b"M 18446744073709551615 18446744073709551615 W\n".as_slice()
    );
}

#[test]
fn outcome_lines(rt: HostRuntime) {
    let mut buffer = [7u8; 64];
    assert_eq!(rt; outcome_line(40, None, &mut buffer), Ok(7));
    assert_eq!(rt; &buffer[0..8], b"T 40 0\n\x07".as_slice());
    assert_eq!(rt;
        outcome_line(0, Some(Fault::ShortLineBuffer), &mut buffer),
        Ok(7)
    );
    assert_eq!(rt; &buffer[0..7], b"T 0 15\n".as_slice());
}

#[test]
fn short_buffers(rt: HostRuntime) {
    let mut short = [7u8; 63];
    assert_eq!(rt;
        outcome_line(40, None, &mut short),
        Err(Fault::ShortLineBuffer)
    );
    assert_eq!(rt; short.as_slice(), [7u8; 63].as_slice());
}

#[test]
fn one_place(rt: HostRuntime) {
    let blank = Stretch {
        offset: 9,
        length: 9,
        sample: Mode::Stopped,
    };
    let mut chart = [blank; 1];
    assert_eq!(rt; append(&mut chart, 0, 3, Mode::Running), Some(1));
    assert_eq!(rt; append(&mut chart, 1, 2, Mode::Running), Some(1));
    assert_eq!(rt; append(&mut chart, 1, 1, Mode::Stopped), None);
    assert_eq!(rt; append(&mut chart, 2, 1, Mode::Running), None);
    assert_eq!(rt; chart[0].length, 5);
}
