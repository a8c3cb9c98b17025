use bus::parts::{Memory, Parts};
use counters::basic::BasicTimer;
use counters::buzzer::Buzzer;
use counters::timer::Timers;
use cpu::registers::Registers;
use faults::Fault;
use machine::state::Machine;
use ports::port::Ports;
use ports::request::Requests;
use recorder::mode::Mode;

// A chip at F800 that was just reset.
fn fresh() -> Machine {
    let mut registers = Registers::new();
    registers.pc = 0xf800;
    Machine {
        parts: Parts {
            registers,
            memory: Memory { ram: [0; 128] },
            ports: Ports::default(),
            timers: Timers::new(),
            buzzer: Buzzer::new(0xff),
            basic: BasicTimer::new(),
            requests: Requests::new(),
            pfdr: 4,
            mode: Mode::Running,
        },
        owed: 0,
        prescaler: 0,
    }
}

// The stop at the first instruction of an image that begins with these bytes.
fn stop(code: &[u8]) -> Option<Fault> {
    let mut m = fresh();
    m.begin(code, 0).err()
}

#[test]
fn stops(rt: HostRuntime) {
    let pc = 0xf800;
    assert_eq!(rt; stop(&[0xff]), None);
    assert_eq!(rt; stop(&[0x5b]), Some(Fault::NotOnSheet { pc }));
    assert_eq!(rt;
        stop(&[0xc5, 0x90]),
        Some(Fault::Unoccupied { pc, address: 0x90 })
    );
    assert_eq!(rt;
        stop(&[0x01, 0xc1]),
        Some(Fault::ReadOfWriteOnly { pc, address: 0xc1 })
    );
    assert_eq!(rt;
        stop(&[0xe7, 0x00, 0xf8]),
        Some(Fault::WriteToReadOnly {
            pc,
            address: 0xf800,
        })
    );
    assert_eq!(rt;
        stop(&[0xe4, 0x40, 0xd2]),
        Some(Fault::UnsupportedMode { pc, address: 0xd2 })
    );
    assert_eq!(rt; stop(&[0x1b, 0x00, 0x00]), None);
}

// Ticks of the image 2F FE, a jump to itself, from the reset on.
fn play(m: &mut Machine, ticks: u8) -> Result<(), Fault> {
    for _ in 0..ticks {
        m.begin(&[0x2f, 0xfe], 0)?;
        m.finish(&[0x2f, 0xfe], 0, 0);
    }
    Ok(())
}

#[test]
fn ticks_and_moves(rt: HostRuntime) {
    let mut m = fresh();
    assert_eq!(rt; play(&mut m, 1), Ok(()));
    assert_eq!(rt; m.still(), Some(7));
    let mut leaping = m;
    leaping.run_on(7);
    assert_eq!(rt; play(&mut m, 7), Ok(()));
    assert_eq!(rt; m, leaping);
    assert_eq!(rt; m.still(), Some(0));
}
