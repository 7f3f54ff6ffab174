// The whole state: read from any bytes, and written over the front of a buffer.
ghost use Rattle.std.specs.Prelude.{◌≡◌, ◌≤◌, length};
ghost use Rattle.std.proofs.lemmas.List.Edits.{sets};
ghost use Rattle.packing.specs.Parts.{number_at};
ghost use Rattle.layout.specs.State.{state_size, phase_of, fixed_bytes, chain_bytes, body_bytes, extent_bytes, InExtent, encoded, stored, extent_in, fixed_in, body_in, chain_in, decoded};

use crate::{extents, phases};
use blocks::BlockNumber;
use packing::{bytes, number_at, put_array, put_number, put_numbers, put_words, words_at};
use ranges::Extent;
use sha256::Midstate;
use state::{Chain, Fixed, Phase, Reader};

// How many bytes a state takes.
pub const STATE_SIZE: usize = 504;

fn phase_at(state: &[u8]) -> Phase
    ensures { result ≡ phase_of (number_at state.now 0) (number_at state.now 8) (number_at state.now 16) }
{
    phases::phase(
        number_at(state, 0),
        number_at(state, 8),
        number_at(state, 16),
    )
}

#[tactic(auto, unfolding(crate::specs::State::extent_in))]
fn extent_at(state: &[u8]) -> Extent
    ensures { result ≡ extent_in state.now }
{
    extents::extent(
        number_at(state, 472),
        number_at(state, 480),
        number_at(state, 488),
        number_at(state, 496),
    )
}

#[tactic(auto, unfolding(crate::specs::State::fixed_in))]
fn fixed_at(state: &[u8]) -> Fixed
    ensures { result ≡ fixed_in state.now }
{
    Fixed {
        accepted: number_at(state, 24) as usize,
        status: number_at(state, 32),
        block_size: number_at(state, 40) as usize,
        extent: extent_at(state),
        key: number_at(state, 48) as usize,
        id: bytes(state, 56),
        id_length: number_at(state, 120) as usize,
    }
}

#[tactic(auto, unfolding(crate::specs::State::body_in))]
fn body_at(state: &[u8]) -> Midstate
    ensures { result ≡ body_in state.now }
{
    Midstate {
        words: words_at(state, 336),
        rest: bytes(state, 400),
        count: number_at(state, 464),
    }
}

#[tactic(auto, unfolding(crate::specs::State::chain_in))]
fn chain_at(state: &[u8]) -> Chain
    ensures { result ≡ chain_in state.now }
{
    Chain {
        number: BlockNumber(number_at(state, 128)),
        hash: bytes(state, 136),
        body: body_at(state),
    }
}

// The state that the bytes say, any bytes: those that are missing count as 0.
#[tactic(auto, unfolding(crate::specs::State::decoded))]
pub fn load(state: &[u8]) -> Reader
    ensures { result ≡ decoded state.now }
{
    Reader {
        phase: phase_at(state),
        fixed: fixed_at(state),
        chain: chain_at(state),
        line: bytes(state, 200),
        released: number_at(state, 328) as usize,
    }
}

// What the head fixed but for the extent, the chain but for its body, the body, and the extent, each at its place. That an array has its length is said beside where
// something stands behind the part.
fn put_fixed(f: Fixed, state: &mut [u8])
    ensures { (state.new ≡ sets state.old 24 (fixed_bytes f)) × (length f.id ≡ 64) }
{
    put_numbers(
        state,
        24,
        &[
            f.accepted as u64,
            f.status,
            f.block_size as u64,
            f.key as u64,
        ],
    );
    put_array(state, 56, f.id);
    put_number(state, 120, f.id_length as u64);
}

fn put_chain(c: Chain, state: &mut [u8])
    ensures { (state.new ≡ sets state.old 128 (chain_bytes c)) × (length c.hash ≡ 64) }
{
    put_number(state, 128, c.number.0);
    put_array(state, 136, c.hash);
}

fn put_body(h: Midstate, state: &mut [u8])
    ensures { state.new ≡ sets state.old 336 (body_bytes h) }
{
    put_words(state, 336, h.words);
    put_array(state, 400, h.rest);
    put_number(state, 464, h.count);
}

fn put_extent(e: Extent, state: &mut [u8])
    ensures { (state.new ≡ sets state.old 472 (extent_bytes e)) × InExtent e }
{
    put_numbers(state, 472, &extents::numbers(e));
}

// All parts, one after the other. What is then read is the state.
fn put_all(r: Reader, state: &mut [u8])
    requires { state_size ≤ length state.old }
    ensures { (state.new ≡ sets state.old 0 (encoded r)) × (decoded state.new ≡ r) }
{
    put_numbers(state, 0, &phases::numbers(r.phase));
    put_fixed(r.fixed, state);
    put_chain(r.chain, state);
    put_array(state, 200, r.line);
    put_number(state, 328, r.released as u64);
    put_body(r.chain.body, state);
    put_extent(r.fixed.extent, state);
}

// Writes the state over the front of the buffer. A buffer that is too short is left as it is. `whole` says every byte, and `back`
// that the same state is then read.
#[tactic(auto, unfolding(crate::specs::State::stored))]
pub fn store(r: Reader, state: &mut [u8])
    ensures whole { state.new ≡ stored r state.old }
    ensures back { state_size ≤ length state.old → decoded state.new ≡ r }
{
    if state.len() < STATE_SIZE {
        return;
    }
    put_all(r, state);
}
