use bench::calls::RAM;
use bench::chip::Chip;
use bench::held::{Call, Held, Moment, Stretches, Way};
use bench::run::{IMAGE, Run};
use faults::Fault;
use hosts::steady::Steady;
use recorder::mode::Mode;
use recorder::stretch::Stretch;
use std::process::Abort;

// `length` ticks of running, from tick 0 on.
fn running(length: u64) -> Stretch<Mode> {
    Stretch {
        offset: 0,
        length,
        sample: Mode::Running,
    }
}

// Code at F800, the reset word F800, and FF elsewhere.
fn image(code: &[u8]) -> [u8; IMAGE] {
    let mut image = [0xff; IMAGE];
    for (place, byte) in image.iter_mut().zip(code) {
        *place = *byte;
    }
    image[0x7fe] = 0x00;
    image[0x7ff] = 0xf8;
    image
}

// What a run of 100 ticks answers: two NOPs, and then this code.
fn stop(code: [u8; 3], way: Way) -> Run {
    let [first, second, third] = code;
    let image = image(&[0xff, 0xff, first, second, third]);
    let mut chip = Chip::new();
    let _ = chip.power_on(&image, [0; RAM]);
    let mut pins = [Stretch::default(); 4];
    let mut modes = [Stretch::default(); 4];
    let call = Call { way, grant: 100 };
    chip.run(&image, &Steady::new(0), call, &mut pins, &mut modes)
}

// Both runs stop at F802, after the eight ticks of the NOPs.
fn check_stop(rt: &impl Abort, code: [u8; 3], fault: Fault) {
    let stopped = Run {
        ticks: 8,
        fault: Some(fault),
    };
    assert_eq!(rt; stop(code, Way::Ticks), stopped);
    assert_eq!(rt; stop(code, Way::Leaps), stopped);
}

#[test]
fn stops_of_runs(rt: HostRuntime) {
    let pc = 0xf802;
    check_stop(&rt, [0x5b, 0xff, 0xff], Fault::NotOnSheet { pc });
    check_stop(
        &rt,
        [0xc5, 0x90, 0xff],
        Fault::Unoccupied { pc, address: 0x90 },
    );
    check_stop(
        &rt,
        [0x01, 0xc1, 0xff],
        Fault::ReadOfWriteOnly { pc, address: 0xc1 },
    );
    check_stop(
        &rt,
        [0xe7, 0x00, 0xf8],
        Fault::WriteToReadOnly {
            pc,
            address: 0xf800,
        },
    );
    check_stop(
        &rt,
        [0xe4, 0x40, 0xd2],
        Fault::UnsupportedMode { pc, address: 0xd2 },
    );
}

#[test]
fn refusals_of_runs(rt: HostRuntime) {
    let image = image(&[0x2f, 0xfe]);
    let host = Steady::new(0);
    let mut pins = [Stretch::default(); 4];
    let mut modes = [running(0); 4];
    let mut chip = Chip::new();
    assert_eq!(rt;
        chip.power_on(&image[0..2047], [0; RAM]),
        Err(Fault::ImageSize)
    );
    assert_eq!(rt; chip.power_on(&image, [0; RAM]), Ok(()));
    let ten = chip.leap_run(&image, &host, 10, &mut pins, &mut modes);
    assert_eq!(rt; ten.ticks, 10);
    modes[0] = running(9);
    let unfit = chip.leap_run(&image, &host, 1, &mut pins, &mut modes);
    let refused = Run {
        ticks: 0,
        fault: Some(Fault::ModeChartUnfit),
    };
    assert_eq!(rt; unfit, refused);
    modes[0] = running(10);
    let long = chip.tick_run(&image, &host, (1 << 32) + 1, &mut pins, &mut modes);
    assert_eq!(rt; long.fault, Some(Fault::GrantTooLarge));
    assert_eq!(rt; chip.held.moment.tick, 10);
}

#[test]
fn end_of_time(rt: HostRuntime) {
    let image = image(&[0x2f, 0xfe]);
    let host = Steady::new(0);
    let last = (1 << 48) - 1;
    let mut pins = [Stretch::default(); 4];
    pins[0].length = last;
    let mut modes = [running(last); 4];
    let mut chip = Chip::new();
    assert_eq!(rt; chip.power_on(&image, [0; RAM]), Ok(()));
    chip.held = Held {
        moment: Moment {
            machine: chip.held.moment.machine,
            tick: last,
        },
        stretches: Stretches { pins: 1, modes: 1 },
    };
    let spent = chip.tick_run(&image, &host, 2, &mut pins, &mut modes);
    assert_eq!(rt; spent.fault, Some(Fault::ChipSpent));
    let one = chip.leap_run(&image, &host, 1, &mut pins, &mut modes);
    let whole = Run {
        ticks: 1,
        fault: None,
    };
    assert_eq!(rt; one, whole);
    assert_eq!(rt; pins[0].length, 1 << 48);
}
