//! What is known of the area that counts, once its frames are read up to a gate.

ghost use Rattle.std.specs.Prelude.{◌≡◌, ◌<◌, ◌^◌};
ghost use Rattle.pl_base.specs.Image.{other};
ghost use Rattle.pl_keeper.specs.Store.{first_head, behind};

use pl_base::Area;

/// Where the first frame's gate stands.
pub const FIRST_GATE: u64 = 17;

/// How many bytes the frames may grow past twice the first one.
pub const GROWTH: u64 = 4_194_304;

/// The area that counts, and how far its frames go. Places are bytes of its file, counted from 0.
#[derive(Clone, Copy)]
pub struct Head {
    pub area: Area,
    pub generation: u64,
    /// The place of the gate behind the frames.
    pub end: u64,
    /// Where the first frame ends, just after its next gate: of a new store, and before there is
    /// one, where the header does.
    pub base: u64,
}

/// The area beside this one.
pub fn other(area: Area) -> Area
    ensures { result ≡ other area }
{
    match area {
        Area::A => Area::B,
        Area::B => Area::A,
    }
}

impl Head {
    /// The head of an area of no frame.
    pub fn first(area: Area, generation: u64) -> Head
        ensures { result ≡ first_head area generation }
    {
        Head {
            area,
            generation,
            end: FIRST_GATE,
            base: FIRST_GATE + 1,
        }
    }

    /// The head behind one more frame, whose next gate stands at this place.
    pub fn behind(self, end: u64) -> Head
        requires { end < 2 ^ 63 }
        ensures { result ≡ behind self end }
    {
        let base = if self.end == FIRST_GATE && self.generation > 0 {
            end + 1
        } else {
            self.base
        };
        Head {
            area: self.area,
            generation: self.generation,
            end,
            base,
        }
    }
}
