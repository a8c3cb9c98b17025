// Every refusal and stop of the bench.
#![tactic(auto)]

ghost use Rattle.std.specs.Prelude.{◌≡◌};
ghost use Rattle.faults.specs.Faults.{number_of, source_of};

// Which part of the bench refuses or stops.
#[derive(Clone, Copy, PartialEq, Eq, Debug)]
pub enum Layer {
    Call,
    Core,
    Bus,
    Chart,
    Host,
}

// Why a call was refused or a run stopped. `pc` is the program counter before the tick that stopped,
// `address` the one that was touched.
#[derive(Clone, Copy, PartialEq, Eq, Debug)]
pub enum Fault {
    ImageSize,
    GrantTooLarge,
    ChipSpent,
    PinChartUnfit,
    ModeChartUnfit,
    NotOnSheet { pc: u16 },
    Unoccupied { pc: u16, address: u16 },
    ReadOfWriteOnly { pc: u16, address: u16 },
    WriteToReadOnly { pc: u16, address: u16 },
    UnsupportedMode { pc: u16, address: u16 },
    NoPinPlace,
    NoModePlace,
    BadPulseList { pair: u16 },
    WaveOutOfRange,
    ShortLineBuffer,
}

impl Fault {
    // The number that lines and tables show. An arm for each: `as` gives no number to an enum whose cases hold values.
    pub fn number(self) -> u8
        ensures { result ≡ number_of self }
    {
        match self {
            Fault::ImageSize => 1,
            Fault::GrantTooLarge => 2,
            Fault::ChipSpent => 3,
            Fault::PinChartUnfit => 4,
            Fault::ModeChartUnfit => 5,
            Fault::NotOnSheet { .. } => 6,
            Fault::Unoccupied { .. } => 7,
            Fault::ReadOfWriteOnly { .. } => 8,
            Fault::WriteToReadOnly { .. } => 9,
            Fault::UnsupportedMode { .. } => 10,
            Fault::NoPinPlace => 11,
            Fault::NoModePlace => 12,
            Fault::BadPulseList { .. } => 13,
            Fault::WaveOutOfRange => 14,
            Fault::ShortLineBuffer => 15,
        }
    }

    pub fn layer(self) -> Layer
        ensures { result ≡ (source_of self).layer }
    {
        match self {
            Fault::ImageSize | Fault::GrantTooLarge | Fault::ChipSpent | Fault::ShortLineBuffer =>
                Layer::Call,
            Fault::NotOnSheet { .. } => Layer::Core,
            Fault::Unoccupied { .. }
            | Fault::ReadOfWriteOnly { .. }
            | Fault::WriteToReadOnly { .. }
            | Fault::UnsupportedMode { .. } => Layer::Bus,
            Fault::PinChartUnfit | Fault::ModeChartUnfit | Fault::NoPinPlace | Fault::NoModePlace =>
                Layer::Chart,
            Fault::BadPulseList { .. } | Fault::WaveOutOfRange => Layer::Host,
        }
    }

    // The program counter before the tick, for the stops of the core and the bus.
    pub fn pc(self) -> Option<u16>
        ensures { result ≡ (source_of self).pc }
    {
        match self {
            Fault::NotOnSheet { pc }
            | Fault::Unoccupied { pc, .. }
            | Fault::ReadOfWriteOnly { pc, .. }
            | Fault::WriteToReadOnly { pc, .. }
            | Fault::UnsupportedMode { pc, .. } => Some(pc),
            _ => None,
        }
    }

    // The touched address, for the stops of the bus.
    pub fn address(self) -> Option<u16>
        ensures { result ≡ (source_of self).address }
    {
        match self {
            Fault::Unoccupied { address, .. }
            | Fault::ReadOfWriteOnly { address, .. }
            | Fault::WriteToReadOnly { address, .. }
            | Fault::UnsupportedMode { address, .. } => Some(address),
            _ => None,
        }
    }
}
