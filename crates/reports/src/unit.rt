// The settings of a unit, and what is for it.
ghost use Rattle.std.specs.Prelude.{◌≡◌};
ghost use Rattle.reports.specs.Lent.{for_unit};
ghost use Rattle.reports.specs.Units.{fit};

use blocks::header::{Address, Fields};

// One individual address, one group address and one MNI, each below 2^24.
#[repr(C)]
#[derive(Clone, Copy)]
pub struct Settings {
    pub individual: u32,
    pub group: u32,
    pub mni: u32,
}

impl Settings {
    // The largest that each can be.
    pub const MOST: u32 = Address::END - 1;

    // Whether each of them is below 2^24.
    pub fn fit(self) -> bool
        ensures { result ≡ fit self }
    {
        self.individual <= Settings::MOST
            && self.group <= Settings::MOST
            && self.mni <= Settings::MOST
    }

    // Whether a header with these fields is for this unit.
    pub(crate) fn meant(self, g: Fields) -> bool
        ensures { result ≡ for_unit self g }
    {
        let d = g.destination;
        d.kind == 0 && g.mni == self.mni && (d.ssi == self.individual || d.ssi == self.group)
    }
}
