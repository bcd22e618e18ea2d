// The limits of the system, each in the unit that its name says.

/// The most faulty members that a ring tolerates; a ring that tolerates f has 3f + 1 members.
pub const MOST_FAULTY: u8 = 3;

/// The most clients of a script.
pub const MOST_CLIENTS: u8 = 16;

/// The most replicas of a script.
pub const MOST_REPLICAS: u32 = 32;

/// The most strings of a replica's cache.
pub const MOST_CACHED_STRINGS: u32 = 4_096;

/// The least bytes of a block.
pub const LEAST_BLOCK: u32 = 64;

/// The most bytes of a block.
pub const MOST_BLOCK: u32 = 8_192;

/// The most parts that a block is cut into by a code.
pub const MOST_PARTS: u8 = 32;

/// The most rows of a code, which are the fragments of a block.
pub const MOST_ROWS: u8 = 64;

/// The most bytes of a version of an object.
pub const MOST_OBJECT_BYTES: usize = 1_048_576;

/// The most bytes of a label.
pub const MOST_LABEL_BYTES: usize = 32;

/// The most actions of an update, and the most guards, in all of its clauses together.
pub const MOST_ACTIONS: usize = 16;

/// The most bytes of content of an update, in all of its clauses together, and of one content.
pub const MOST_CONTENT_BYTES: usize = 65_536;

/// The most submits, resubmits and forgeries of a script together.
pub const MOST_SUBMITS: u32 = 1_024;

/// The most blocks that the actions of a script may load.
pub const MOST_LOAD_BLOCKS: u32 = 8_192;

/// The most bytes that the actions of a script may load.
pub const MOST_LOAD_BYTES: u32 = 33_554_432;

/// The most event lines of a script.
pub const MOST_EVENTS: u32 = 16_384;

/// The most bytes of a script.
pub const MOST_SCRIPT_BYTES: usize = 1_048_576;

/// The greatest sequence number of a slot.
pub const MOST_SLOTS: u32 = 65_536;
