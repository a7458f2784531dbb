// A cabinet's registers.
ghost use Rattle.std.specs.Prelude.{◌≡◌};
ghost use Rattle.panel.specs.Registers.{bits_of, byte_of, line};
ghost use Rattle.panel.specs.Code.Seen.{pending_by, cabinet_by, cleared_by};

use crate::events::{plug_ins, releases};
use engine::session::Session;

// A bit for each event of a cabinet: a car is plugged in, the charger is freed.
#[derive(Clone, Copy)]
pub struct Bits {
    pub started: bool,
    pub ended: bool,
}

impl Bits {
    // Bits 0 and 1 of a byte.
    pub fn of_byte(byte: u8) -> Self
        ensures { result ≡ bits_of byte }
    {
        Bits {
            started: byte % 2 == 1,
            ended: byte / 2 % 2 == 1,
        }
    }

    pub fn byte(self) -> u8
        ensures { result ≡ byte_of self }
    {
        u8::from(self.started) + 2 * u8::from(self.ended)
    }
}

// How often each event had come when its bit was last cleared, and what is enabled. A round changes nothing here: what came since shows in
// the sessions.
#[derive(Clone, Copy)]
pub struct Cabinet {
    pub plug_ins_seen: usize,
    pub releases_seen: usize,
    pub enable: Bits,
}

// No event was seen, and nothing is enabled.
pub const UNUSED: Cabinet = Cabinet {
    plug_ins_seen: 0,
    releases_seen: 0,
    enable: Bits {
        started: false,
        ended: false,
    },
};

impl Cabinet {
    // What is pending at the charger.
    pub fn pending(&self, c: usize, sessions: &[Session]) -> Bits
        ensures { result ≡ pending_by self.now c sessions.now }
    {
        Bits {
            started: self.plug_ins_seen < plug_ins(sessions, c),
            ended: self.releases_seen < releases(sessions, c),
        }
    }

    // Whether the line is raised.
    pub fn line(&self, c: usize, sessions: &[Session]) -> bool
        ensures { result ≡ line (cabinet_by self.now c sessions.now) }
    {
        (self.enable.started && self.plug_ins_seen < plug_ins(sessions, c))
            || (self.enable.ended && self.releases_seen < releases(sessions, c))
    }

    // The bits of `ones` are cleared.
    pub fn clear(&mut self, ones: Bits, c: usize, sessions: &[Session])
        ensures { self.new ≡ cleared_by ones c sessions.now self.old }
    {
        if ones.started {
            self.plug_ins_seen = plug_ins(sessions, c);
        }
        if ones.ended {
            self.releases_seen = releases(sessions, c);
        }
    }
}
