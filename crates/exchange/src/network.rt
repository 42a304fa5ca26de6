// The network that both sites plan for: its zones, and the direct journeys between them.
ghost use Rattle.std.specs.Prelude.{◌<◌};

use std::fmt;

// The zones. A zone's row and its column in every table have the same number.
#[derive(Clone, Copy)]
pub enum Zone {
    Airport,
    Bridge,
    Centre,
    Docks,
    East,
}

impl Zone {
    // How many zones there are, and so how many rows and columns a table has.
    pub const COUNT: u32 = 5;
    // How many entries a table has: one for each zone to start from and each to arrive at.
    pub const PAIRS: u32 = Zone::COUNT * Zone::COUNT;

    pub const ALL: [Zone; 5] = [
        Zone::Airport,
        Zone::Bridge,
        Zone::Centre,
        Zone::Docks,
        Zone::East,
    ];

    // The number of the zone's row and of its column.
    pub fn index(self) -> u32
        ensures { result < 5 }
    {
        self as u32
    }

    fn name(self) -> &'static str {
        match self {
            Zone::Airport => "Airport",
            Zone::Bridge => "Bridge",
            Zone::Centre => "Centre",
            Zone::Docks => "Docks",
            Zone::East => "East",
        }
    }
}

impl fmt::Display for Zone {
    fn fmt<W: fmt::Write>(&self, f: &mut fmt::Formatter<W>) -> fmt::Result {
        f.pad(self.name())
    }
}

// A journey without a change. Some run one way only.
#[derive(Clone, Copy)]
pub struct Journey {
    pub from: Zone,
    pub to: Zone,
    pub minutes: u32,
}

impl Journey {
    fn new(from: Zone, to: Zone, minutes: u32) -> Journey {
        Journey { from, to, minutes }
    }
}

// All direct journeys: between any other two zones there is none.
pub fn journeys() -> [Journey; 11] {
    [
        Journey::new(Zone::Airport, Zone::Bridge, 25),
        Journey::new(Zone::Airport, Zone::Centre, 18),
        Journey::new(Zone::Bridge, Zone::Airport, 25),
        Journey::new(Zone::Bridge, Zone::Centre, 9),
        Journey::new(Zone::Bridge, Zone::Docks, 12),
        Journey::new(Zone::Centre, Zone::Airport, 18),
        Journey::new(Zone::Centre, Zone::Bridge, 9),
        Journey::new(Zone::Centre, Zone::East, 30),
        Journey::new(Zone::Docks, Zone::Bridge, 12),
        Journey::new(Zone::Docks, Zone::East, 7),
        Journey::new(Zone::East, Zone::Airport, 40),
    ]
}
