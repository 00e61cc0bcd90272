// Why a call is refused, or a block counts as nothing heard.
ghost use Rattle.std.specs.Prelude.{◌≡◌};
ghost use Rattle.blocks.specs.Faults.{number_of};

// The faults, by their numbers; 0 is the number of none.
#[derive(Clone, Copy, PartialEq, Eq)]
pub enum Fault {
    // A lent block of another length, or an output that is too short.
    Length = 1,

    // A pad bit is set.
    Pad = 2,

    // A system code that is not one of direct mode's (9.3.29).
    System = 3,

    // A SYNC PDU type that is not DMAC-SYNC.
    SyncType = 4,

    // A communication type that is not direct MS-MS.
    Communication = 5,

    // Encryption that is not off.
    Encryption = 6,

    // A block's frame number that is not 1 to 18.
    Frame = 7,

    // A reserved address type.
    AddressType = 8,

    // A message type without an entry, or a header above 124 bits.
    MessageType = 9,

    // Fragmented with slot count 0.
    Count = 10,

    // Fill told of, and no 1 in the DM-SDU's room.
    Fill = 11,

    // An SCH/F that is neither DMAC-FRAG nor DMAC-END.
    PduType = 12,

    // A number too large for its field, an absent one not 0, a width that is not the elements', or bits not lent.
    Range = 13,

    // More than fifteen continuation blocks.
    TooLong = 14,

    // A report's frame that is not 1 to 18.
    ReportFrame = 15,

    // A report's slot that is not 1 or 3.
    ReportSlot = 16,

    // A message buffer under 512 bytes.
    Buffer = 17,

    // A block whose frame or slot is not the report's.
    Place = 18,

    // Not an SDS-TL message, or too short to tell, or its FCS is wrong.
    NotSdsTl = 21,

    // An SDS-TL message that is shorter than its fixed elements.
    TooShort = 22,
}

impl Fault {
    // Kept: a method whose clause says the number; `u8::from` would say it in a ghost member, no plainer.
    // Its number, as answers have it.
    pub fn number(self) -> u8
        ensures { result ≡ number_of self }
    {
        self as u8
    }
}
