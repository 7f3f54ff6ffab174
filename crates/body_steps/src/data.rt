// A block's data, and the CR LF after it.
ghost use Rattle.std.specs.Prelude.{List, ◌≡◌, ℕ};
ghost use Rattle.state.specs.Configuration.{configuration, next_of};
ghost use Rattle.body_steps.specs.Data.{push_data, push_data_end};

use refusals::Refusal;
use state::{Phase, Reader, Stepped, Word, in_phase, refused, said, with_line};

// A byte of a block's data, of which `have` bytes out of `size` have come. It has no room where the buffer is too short.
#[tactic(auto, unfolding(crate::specs::Data::push_data))]
pub fn push_data(r: Reader, block: &mut [u8], have: usize, size: usize, x: u8) -> Stepped
    ensures { (h q : List ℕ) → next_of result h block.new q ≡ push_data (configuration r h block.old q) have size x }
{
    if block.len() <= have {
        return refused(r, block, have, Refusal { number: 6, at: 0 });
    }
    block[have] = x;
    let next = have + 1;
    if size <= next {
        return said(Word::More, in_phase(r, Phase::DataEnd { have: 0, size }));
    }
    said(Word::More, in_phase(r, Phase::Data { have: next, size }))
}

// A byte after a block of `size` bytes. The first is kept, and judged with the second.
#[tactic(auto, unfolding(crate::specs::Data::push_data_end, stream::specs::GoodText::is_good_data_end, stream::specs::Places::data_end_place))]
pub fn push_data_end(r: Reader, block: &mut [u8], have: usize, size: usize, x: u8) -> Stepped
    ensures { (h q : List ℕ) → next_of result h block.new q ≡ push_data_end (configuration r h block.old q) have size x }
{
    let mut line = r.line;
    if have == 0 {
        line[0] = x;
        return said(
            Word::More,
            with_line(r, Phase::DataEnd { have: 1, size }, line),
        );
    }
    let end = [line[0], x];
    let checked = scanning::data_end(&end);
    if !checked.good {
        let at = checked.at;
        return refused(r, block, size, Refusal { number: 6, at });
    }
    said(Word::More, in_phase(r, Phase::NextLine { have: 0, size }))
}
