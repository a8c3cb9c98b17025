// Plays one image before one host in several ways, and prints what each comes to, and whether its answers, record and
// charts are those of one grant by ticks. The image is read from standard input.
#![tactic(auto)]

mod board;
mod mixed;
mod wiring;

use anyhow::anyhow;
use bench::held::{Call, Way};
use board::{Board, Places, Plan};
use hosts::host::PinHost;
use hosts::join::Join;
use hosts::pulses::PulseList;
use mixed::{TURNS, play_mixed};
use recorder::mode::Mode;
use std::io::Read;
use wiring::{DOOR, door_pulses, tacho};

// The ticks of each way.
pub const TOTAL: u64 = 300_000;

// Charts that suffice, one that lacks places for pins, and one that lacks places for modes.
const ROOMY: Places = Places {
    pins: 4096,
    modes: 1024,
};

const FEW_PINS: Places = Places {
    pins: 150,
    modes: 1024,
};

const FEW_MODES: Places = Places {
    pins: 4096,
    modes: 40,
};

// The even plans; the first is what the others are compared with.
const PLANS: [Plan; 4] = [
    Plan {
        call: Call {
            way: Way::Ticks,
            grant: TOTAL,
        },
        times: 1,
    },
    Plan {
        call: Call {
            way: Way::Leaps,
            grant: TOTAL,
        },
        times: 1,
    },
    Plan {
        call: Call {
            way: Way::Ticks,
            grant: TOTAL / 1000,
        },
        times: 1000,
    },
    Plan {
        call: Call {
            way: Way::Leaps,
            grant: TOTAL / 1000,
        },
        times: 1000,
    },
];

// The byte of RAM in which the image counts the resets by the watchdog.
const RESETS: usize = 2;

// Prints whether a board is the same as the first.
fn print_verdict(rt: &HostRuntime, board: &Board, first: &Board) -> anyhow::Result<()> {
    let verdict = if board.is_same(first) {
        "same"
    } else {
        "DIFFERENT"
    };
    println!(rt; "{board}, {verdict}")?;
    Ok(())
}

// Plays the even plans on charts of one size, and answers the board of the first.
fn play_plans<P: PinHost>(
    rt: &HostRuntime,
    image: &[u8],
    host: &P,
    places: Places,
) -> anyhow::Result<Board> {
    let pins = places.pins;
    let modes = places.modes;
    println!(rt; "charts of {pins} and {modes} places")?;
    let mut first = Board::new(rt.alloc(), image, places)?;
    first.play(PLANS[0], image, host);
    for plan in PLANS {
        let mut board = Board::new(rt.alloc(), image, places)?;
        board.play(plan, image, host);
        print!(rt; "{plan}: ")?;
        print_verdict(rt, &board, &first)?;
    }
    Ok(first)
}

// Plays the mixed way on charts that suffice.
fn play_uneven<P: PinHost>(
    rt: &HostRuntime,
    image: &[u8],
    host: &P,
    first: &Board,
) -> anyhow::Result<()> {
    let mut board = Board::new(rt.alloc(), image, ROOMY)?;
    let refused = play_mixed(&mut board, image, host);
    print!(rt; "mixed, {TURNS} grants, {refused} refusals: ")?;
    print_verdict(rt, &board, first)
}

// Prints how many stretches each mode has, and how often the watchdog reset the chip.
fn print_events(rt: &HostRuntime, board: &Board) -> anyhow::Result<()> {
    let counted = board.chip.held.stretches.modes;
    let stretches_of = |mode: Mode| {
        let modes = board.modes.iter().take(counted);
        modes.filter(|stretch| stretch.sample == mode).count()
    };
    let running = stretches_of(Mode::Running);
    let napping = stretches_of(Mode::WakeUpTimer);
    let stopped = stretches_of(Mode::Stopped);
    let resets = board.chip.held.moment.machine.parts.memory.ram[RESETS];
    println!(rt; "stretches of R: {running}, W: {napping}, S: {stopped}")?;
    println!(rt; "resets by the watchdog: {resets}")?;
    Ok(())
}

fn main(rt: HostRuntime) -> anyhow::Result<()> {
    let mut bytes = Vec::new(rt.alloc());
    rt.stdin().read_to_end(&mut bytes)?;
    let image = bytes.as_slice();
    let pulses = door_pulses(rt.alloc())?;
    let mut door = PulseList::new();
    door.set(DOOR, pulses.as_slice())
        .map_err(|_| anyhow!("the door's pulses are refused"))?;
    let fan = tacho().map_err(|_| anyhow!("the tacho's wave is refused"))?;
    let host = Join {
        left: door,
        right: fan,
    };
    let first = play_plans(&rt, image, &host, ROOMY)?;
    play_uneven(&rt, image, &host, &first)?;
    print_events(&rt, &first)?;
    let _ = play_plans(&rt, image, &host, FEW_PINS)?;
    let _ = play_plans(&rt, image, &host, FEW_MODES)?;
    Ok(())
}
