//! What the nesting screen shows, and the stations on the line.

use order::{CutOrder, SizeLine};

/// A station: its address on the line, and the number of its controller there.
#[derive(Clone, Copy)]
pub struct Station {
    pub name: &'static str,
    pub address: u8,
    pub controller: usize,
}

/// From here orders go out.
pub const PLANNER: Station = Station {
    name: "planner",
    address: 0x0D,
    controller: 0,
};

pub const PLOTTER: Station = Station {
    name: "plotter",
    address: 0x0C,
    controller: 1,
};

pub const SPREADER: Station = Station {
    name: "spreader",
    address: 0x20,
    controller: 2,
};

pub const KNIFE: Station = Station {
    name: "knife",
    address: 0x21,
    controller: 3,
};

/// The order of the day.
pub const ORDER: CutOrder = CutOrder {
    marker: 20417,
    lines: [
        SizeLine {
            size: 32,
            plies: 24,
            pieces: 8,
        },
        SizeLine {
            size: 33,
            plies: 24,
            pieces: 8,
        },
        SizeLine {
            size: 34,
            plies: 36,
            pieces: 8,
        },
        SizeLine {
            size: 35,
            plies: 36,
            pieces: 8,
        },
        SizeLine {
            size: 36,
            plies: 48,
            pieces: 8,
        },
        SizeLine {
            size: 37,
            plies: 48,
            pieces: 8,
        },
        SizeLine {
            size: 38,
            plies: 60,
            pieces: 8,
        },
        SizeLine {
            size: 39,
            plies: 72,
            pieces: 8,
        },
        SizeLine {
            size: 40,
            plies: 84,
            pieces: 10,
        },
        SizeLine {
            size: 41,
            plies: 96,
            pieces: 10,
        },
        SizeLine {
            size: 42,
            plies: 120,
            pieces: 10,
        },
        SizeLine {
            size: 43,
            plies: 144,
            pieces: 10,
        },
        SizeLine {
            size: 44,
            plies: 144,
            pieces: 10,
        },
        SizeLine {
            size: 45,
            plies: 120,
            pieces: 10,
        },
        SizeLine {
            size: 46,
            plies: 96,
            pieces: 10,
        },
        SizeLine {
            size: 47,
            plies: 84,
            pieces: 10,
        },
        SizeLine {
            size: 48,
            plies: 72,
            pieces: 12,
        },
        SizeLine {
            size: 49,
            plies: 60,
            pieces: 12,
        },
        SizeLine {
            size: 50,
            plies: 48,
            pieces: 12,
        },
        SizeLine {
            size: 51,
            plies: 36,
            pieces: 12,
        },
        SizeLine {
            size: 52,
            plies: 300,
            pieces: 6,
        },
        SizeLine {
            size: 53,
            plies: 24,
            pieces: 12,
        },
        SizeLine {
            size: 54,
            plies: 12,
            pieces: 12,
        },
    ],
};
