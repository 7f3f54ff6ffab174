// Paper 01's limits as the code has them, each named once, in the order of the definitions (stream/specs/Limits.antt). There is nothing to
// prove here: what keeps to a limit is proved against the rule that has it, so that a number which differs from the definition's is refused
// there. The state and its bytes have lengths of their own: an id of 64 bytes, a line of 128.
#![tactic(auto)]

// A head, and a trailer, without its end is refused at this many bytes. The head buffer and the question buffer have as many at least.
pub const HEAD_LIMIT: usize = 32_768;

// The most fields of a head.
pub const FIELD_LIMIT: usize = 128;

// The most names that a signature lists.
pub const NAME_LIMIT: usize = 32;

// The most bytes of an injection's id.
pub const ID_LIMIT: usize = 64;

// The most digits of a time in seconds.
pub const TIME_DIGITS: usize = 12;

// The most bytes of a block, for which the block buffer has room at least, and the most digits that write its size.
pub const BLOCK_LIMIT: usize = 65_536;

pub const BLOCK_DIGITS: usize = 5;

// A chunk line without its end is refused at this many bytes.
pub const LINE_LIMIT: usize = 128;

// The most hex digits of a chunk's size.
pub const SIZE_DIGITS: usize = 8;

// The most bytes of a body.
pub const BODY_LIMIT: u64 = 4_294_967_296;

// The most digits of the size that a show claims for its body.
pub const DATA_SIZE_DIGITS: usize = 10;

// The most records of a key ring.
pub const RING_LIMIT: usize = 16;
