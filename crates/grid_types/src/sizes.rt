//! The numbers that all crates agree on: sizes in bytes, and the limits of a shape. `docs/FORMAT.md` says where they stand
//! on a page.

/// The bytes of a page.
pub const PAGE_BYTES: usize = 4096;

/// The bytes of the head that each page but a header page begins with.
pub const HEAD_BYTES: usize = 96;

/// The bytes of a page behind its head.
pub const BODY_BYTES: usize = PAGE_BYTES - HEAD_BYTES;

/// How many numbers of four bytes stand on a page: the cells of a directory part, or the data pages of bucket numbers.
pub const WORDS_ON_PAGE: usize = BODY_BYTES / 4;

/// How many numbers of eight bytes stand on a page: the boundaries on one of a scale's two pages.
pub const NUMBERS_ON_PAGE: usize = BODY_BYTES / 8;

/// The most attributes of a key.
pub const MOST_ATTRIBUTES: usize = 4;

/// The bytes of a key on a page, eight for each of the most attributes; those of attributes that a file lacks are 0.
pub const KEY_BYTES: usize = 8 * MOST_ATTRIBUTES;

/// The most bytes of data that a record has.
pub const LONGEST_DATA: usize = 40;

/// The bytes that a bucket's page has for the data of a record.
pub const DATA_ROOM: usize = 47;

/// Where the data of a record begin on a bucket's page: behind its key and a byte for their length.
pub const DATA_AT: usize = KEY_BYTES + 1;

/// The bytes of a record on a bucket's page.
pub const RECORD_BYTES: usize = DATA_AT + DATA_ROOM;

/// The largest capacity of a bucket. BODY_BYTES / RECORD_BYTES records have room on a page, 50 of them: a full bucket, the
/// one that it takes before it is cut, and one to spare.
pub const MOST_RECORDS: usize = 48;

/// The bytes of an update on a slot page: 16 for its kind, its note and the length of its data, and then key and data.
pub const UPDATE_BYTES: usize = 96;

/// The most clients of a script.
pub const MOST_CLIENTS: usize = 16;

/// The most updates of a batch, one for each client.
pub const MOST_UPDATES: usize = MOST_CLIENTS;

/// The least capacity of a bucket: one record for each part of a cut.
pub const LEAST_RECORDS: usize = 2;

/// The fewest data pages of a file.
pub const FEWEST_PAGES: usize = 8;

/// The most data pages of a file.
pub const MOST_PAGES: usize = 65_536;

/// The most slots of a half of the journal: its gate page has a byte for each.
pub const MOST_SLOTS: usize = BODY_BYTES;

/// The most boundaries of a scale: two pages of them.
pub const MOST_BOUNDARIES: usize = 2 * NUMBERS_ON_PAGE;

/// The most cells of a directory.
pub const MOST_CELLS: usize = 1_000_000;
