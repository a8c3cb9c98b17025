use crate::TOTAL;
use crate::board::{Board, Places};
use bench::held::{Call, Way};
use bench::run::{GRANT, Run};
use faults::Fault;
use hosts::host::PinHost;

// Uneven grants, over and over. Their number is odd, so that each is run by ticks and by leaps in turn.
const GRANTS: [u64; 9] = [1, 7, 300, 1000, 0, 2, 64, 2049, 13];

const WAYS: [Way; 2] = [Way::Ticks, Way::Leaps];

// Enough turns for all ticks.
pub const TURNS: usize = 800;

// After so many turns there are calls that have to be refused.
const ROUND: usize = 25;

// A run call that has to be refused, and its fault.
#[derive(Clone, Copy)]
struct Refusal {
    fault: Fault,
    bytes: usize,
    grant: u64,
    places: Places,
}

// An image that is a byte short, a grant above 2^32, and charts that lack their last counted place.
fn refusals(board: &Board, image: &[u8]) -> [Refusal; 4] {
    let counted = board.chip.held.stretches;
    let bytes = image.len();
    let places = board.places();
    let few_pins = Places {
        pins: counted.pins.saturating_sub(1),
        ..places
    };
    let few_modes = Places {
        modes: counted.modes.saturating_sub(1),
        ..places
    };
    let refusal = |fault, bytes, grant, places| Refusal {
        fault,
        bytes,
        grant,
        places,
    };
    [
        refusal(Fault::ImageSize, bytes.saturating_sub(1), 1, places),
        refusal(Fault::GrantTooLarge, bytes, GRANT + 1, places),
        refusal(Fault::PinChartUnfit, bytes, 1, few_pins),
        refusal(Fault::ModeChartUnfit, bytes, 1, few_modes),
    ]
}

// Whether a call is refused as it has to be, and leaves the record as it was.
fn is_refused<P: PinHost>(
    board: &mut Board,
    way: Way,
    image: &[u8],
    host: &P,
    refusal: Refusal,
) -> bool {
    let before = board.chip.held;
    let image = &image[..refusal.bytes.min(image.len())];
    let grant = refusal.grant;
    let run = board.call(Call { way, grant }, image, host, refusal.places);
    let refused = Run {
        ticks: 0,
        fault: Some(refusal.fault),
    };
    run == refused && board.chip.held == before
}

// Makes every call that has to be refused, and answers how many are.
fn refuse<P: PinHost>(board: &mut Board, way: Way, image: &[u8], host: &P) -> usize {
    refusals(board, image)
        .into_iter()
        .filter(|refusal| is_refused(board, way, image, host, *refusal))
        .count()
}

// Runs uneven grants by ticks and leaps in turn, with refused calls between them. Answers how many were refused.
pub fn play_mixed<P: PinHost>(board: &mut Board, image: &[u8], host: &P) -> usize {
    let mut refused: usize = 0;
    let calls = GRANTS.iter().cycle().zip(WAYS.iter().cycle());
    for (turn, (grant, way)) in calls.take(TURNS).enumerate() {
        let left = TOTAL.saturating_sub(board.ran());
        let way = *way;
        let grant = left.min(*grant);
        board.run(Call { way, grant }, image, host);
        if turn % ROUND == ROUND - 1 {
            refused = refused.saturating_add(refuse(board, way, image, host));
        }
    }
    refused
}
