// The bytes of a call sheet that have a meaning: the letter of each call, of clause lines and of the first line, the dash, and the words
// of the modes. `specs/Letters.antt` has them for definitions.
pub const BUMP: u8 = b'b';

pub const DECAY: u8 = b'y';

pub const SET_DECAY: u8 = b'w';

pub const INSERT: u8 = b'i';

pub const SWITCH_OFF: u8 = b'o';

pub const DECIDE: u8 = b'g';

pub const ENQUEUE: u8 = b'e';

pub const LEARN_UNIT: u8 = b'u';

pub const GO_BACK: u8 = b'k';

pub const BUMP_REASON: u8 = b'r';

pub const GROUP: u8 = b'f';

pub const CLAUSE: u8 = b'c';

pub const FIRST: u8 = b'n';

pub const DASH: u8 = b'-';

pub const VSIDS: [u8; 5] = *b"vsids";

pub const VMTF: [u8; 4] = *b"vmtf";
