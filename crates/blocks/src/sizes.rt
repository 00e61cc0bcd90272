// The sizes of the three blocks, and where their elements stand.

// The pad bits after a block.
pub const PAD: usize = 4;

// SCH/S: its lent bytes, these in bits, and how many of the bits are the block's; the others are pad.
// Kept: the three constants stand in each block, since an array's length and another constant cannot be worked out from
// a trait's or a generic block's constant (tried: it is refused).
#[derive(Clone, Copy)]
pub struct SchS {}

impl SchS {
    pub const BYTES: usize = 8;

    pub const LENT: usize = SchS::BYTES * 8;

    pub const BITS: usize = SchS::LENT - PAD;

    // Where the elements that are read start (table 21).
    pub(crate) const SYSTEM: usize = 0;

    pub(crate) const SYNC_TYPE: usize = 4;

    pub(crate) const COMMUNICATION: usize = 6;

    pub(crate) const USAGE: usize = 10;

    pub(crate) const SLOT: usize = 12;

    pub(crate) const FRAME: usize = 14;

    pub(crate) const ENCRYPTION: usize = 19;
}

// The same of SCH/H.
#[derive(Clone, Copy)]
pub struct SchH {}

impl SchH {
    pub const BYTES: usize = 16;

    pub const LENT: usize = SchH::BYTES * 8;

    pub const BITS: usize = SchH::LENT - PAD;

    // Where the elements start that stand at one place (table 22).
    pub(crate) const FILL: usize = 10;

    pub(crate) const FRAGMENTED: usize = 11;

    pub(crate) const COUNT: usize = 12;
}

// The same of SCH/F, and the bits of the DM-SDU's room.
#[derive(Clone, Copy)]
pub struct SchF {}

impl SchF {
    pub const BYTES: usize = 34;

    pub const LENT: usize = SchF::BYTES * 8;

    pub const BITS: usize = SchF::LENT - PAD;

    // Where the elements start, and the DM-SDU after them (9.2.2, 9.2.3).
    pub(crate) const PDU_TYPE: usize = 0;

    pub(crate) const SUBTYPE: usize = 2;

    pub(crate) const FILL: usize = 3;

    pub const FIRST: usize = 4;

    pub const ROOM: usize = SchF::BITS - SchF::FIRST;
}

// The widths of the elements that are wider than one bit.
#[derive(Clone, Copy)]
pub struct Width {}

impl Width {
    pub const SYSTEM: usize = 4; // 9.3.29

    pub const SYNC_TYPE: usize = 2; // 9.3.28

    pub const COMMUNICATION: usize = 2; // 9.3.3

    pub const USAGE: usize = 2; // 9.3.1

    pub const SLOT: usize = 2; // 9.3.25

    pub const FRAME: usize = 5; // 9.3.11

    pub const ENCRYPTION: usize = 2; // 9.3.2

    pub const PDU_TYPE: usize = 2; // 9.3.16

    pub const COUNT: usize = 4; // number of SCH/F slots, 9.3.22

    pub const COUNTDOWN: usize = 2; // 9.3.10

    pub const ADDRESS_TYPE: usize = 2; // 9.3.5, 9.3.27

    pub const ADDRESS: usize = 24; // where it is included: 9.3.4, 9.3.26

    pub const MNI: usize = 24; // 9.3.20

    pub const MESSAGE_TYPE: usize = 5; // 9.3.19
}
