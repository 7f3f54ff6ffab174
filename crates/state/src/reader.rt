// The reader's state, by subject. It goes in by value and comes back by value; the bytes of head, block and trailer lie in lent
// buffers.
ghost use Rattle.std.specs.Prelude.{◌≡◌};
ghost use Rattle.state.specs.Configuration.{fresh_reader, in_phase, with_line, with_chain, with_hash};

use crate::phase::Phase;
use blocks::BlockNumber;
use ranges::Extent;
use sha256::Midstate;

// What the head fixes for the rest of the stream.
// Kept (DESIGN-PASS 6): the reader has no heap, and the state has its places in the bytes that C lends.
#[derive(Clone, Copy)]
pub struct Fixed {
    // The head's length once it was accepted, else 0.
    pub accepted: usize,
    pub status: u64,
    // The block size N.
    pub block_size: usize,
    // Which bytes of the body the answer carries.
    pub extent: Extent,
    // The number of the key's record.
    pub key: usize,
    // The injection's id, and how many of its bytes count.
    pub id: [u8; 64],
    pub id_length: usize,
}

// The chain of blocks: the block under way, the hash of the one before it, and the body up to there as SHA-256 has it under way.
#[derive(Clone, Copy)]
pub struct Chain {
    pub number: BlockNumber,
    pub hash: [u8; 64],
    pub body: Midstate,
}

#[derive(Clone, Copy)]
pub struct Reader {
    pub phase: Phase,
    pub fixed: Fixed,
    pub chain: Chain,
    // The bytes of the chunk line under way, or the first byte of a data end.
    pub line: [u8; 128],
    // The length of the block that is handed out, 0 where none is.
    pub released: usize,
}

// A reader before its stream.
#[tactic(auto, unfolding(crate::specs::Configuration::fresh_reader))]
pub fn fresh() -> Reader
    ensures { result ≡ fresh_reader }
{
    let fixed = Fixed {
        accepted: 0,
        status: 0,
        block_size: 0,
        extent: Extent::Whole,
        key: 0,
        id: [0; 64],
        id_length: 0,
    };
    let chain = Chain {
        number: BlockNumber(0),
        hash: [0; 64],
        body: sha256::start(),
    };
    Reader {
        phase: Phase::Head(0),
        fixed,
        chain,
        line: [0; 128],
        released: 0,
    }
}

// The same reader with another phase.
pub fn in_phase(r: Reader, phase: Phase) -> Reader
    ensures { result ≡ in_phase r phase }
{
    Reader { phase, ..r }
}

// The same with another line.
pub fn with_line(r: Reader, phase: Phase, line: [u8; 128]) -> Reader
    ensures { result ≡ with_line r phase line }
{
    Reader { phase, line, ..r }
}

// The same with another chain.
pub fn with_chain(r: Reader, phase: Phase, chain: Chain) -> Reader
    ensures { result ≡ with_chain r phase chain }
{
    Reader { phase, chain, ..r }
}

// The same with another hash, and another body.
pub fn with_hash(r: Reader, phase: Phase, hash: [u8; 64], body: Midstate) -> Reader
    ensures { result ≡ with_hash r phase hash body }
{
    let chain = Chain {
        hash,
        body,
        ..r.chain
    };
    Reader { phase, chain, ..r }
}
