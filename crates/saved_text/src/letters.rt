// The letters of a saved text's lines behind its clauses. The first line and the clauses have those of a call sheet.
pub const TRAIL: u8 = b't';

pub const LEVELS: u8 = b'l';

pub const REASONS: u8 = b'r';

pub const CURR: u8 = b'q';

pub const MEMBERS: u8 = b'h';

pub const ACTIVITIES: u8 = b'a';

pub const SWITCHES: u8 = b'o';

pub const STEP: u8 = b'w';

pub const ORDER: u8 = b'v';

pub const STAMPS: u8 = b's';

pub const TIMESTAMP: u8 = b'k';

pub const SEARCH: u8 = b'f';
