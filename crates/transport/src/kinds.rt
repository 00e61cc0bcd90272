// The four kinds of message.
ghost use Rattle.std.specs.Prelude.{◌≡◌};
ghost use Rattle.transport.specs.Kinds.{number, chosen, Named};

use blocks::fault::Fault;

// SDS-TRANSFER, SDS-REPORT, SDS-ACK and SDS-SHORT REPORT, by their numbers.
#[derive(Clone, Copy, PartialEq, Eq)]
pub(crate) enum Kind {
    Transfer = 1,
    Report = 2,
    Ack = 3,
    Short = 4,
}

impl Kind {
    // Its number, as messages have it.
    pub(crate) fn number(self) -> u8
        ensures { result ≡ number self }
    {
        self as u8
    }

    // What stands here for it.
    pub(crate) fn per<T: Copy>(self, transfer: T, report: T, ack: T, short: T) -> T
        ensures { result ≡ chosen self transfer report ack short }
    {
        match self {
            Kind::Transfer => transfer,
            Kind::Report => report,
            Kind::Ack => ack,
            Kind::Short => short,
        }
    }
}

impl TryFrom<u8> for Kind {
    type Error = Fault;

    ghost try_from_gives = { Named };

    fn try_from(number: u8) -> Result<Kind, Fault> {
        match number {
            1 => Ok(Kind::Transfer),
            2 => Ok(Kind::Report),
            3 => Ok(Kind::Ack),
            4 => Ok(Kind::Short),
            _ => Err(Fault::NotSdsTl),
        }
    }
}
