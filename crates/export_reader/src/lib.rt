// The readers for C hosts: include/chandrulek.h's functions, each the call of `lent_reader` or `lent_line` of that name.
#![tactic(auto)]

ghost use Rattle.lent_reader.specs.Seen.{FreshIn, RunIn, LoadIn, AskIn};
ghost use Rattle.lent_line.specs.Seen.{FreshIn as LineFreshIn, TakeIn, LoadIn as LineLoadIn, AskIn as LineAskIn};

#[unsafe(no_mangle)]
pub extern "C" fn chandrulek_reader_fresh(state: &mut [u8], setup: &[u32; 6]) -> u32
    ensures { FreshIn state.old setup.now result state.new }
{
    lent_reader::reader_fresh(state, setup)
}

#[unsafe(no_mangle)]
pub extern "C" fn chandrulek_run(state: &mut [u8], records: &[u8], answer: &mut [u64; 8]) -> u32
    ensures { RunIn state.old records.now result state.new answer.new }
{
    lent_reader::run(state, records, answer)
}

#[unsafe(no_mangle)]
pub extern "C" fn chandrulek_load(state: &mut [u8], image: &[i32], current: usize) -> u32
    ensures { LoadIn state.old image.now current result state.new }
{
    lent_reader::load(state, image, current)
}

#[unsafe(no_mangle)]
pub extern "C" fn chandrulek_ask(state: &[u8], slot: usize, answer: &mut [i32; 7]) -> u32
    ensures { AskIn state.now slot result answer.new }
{
    lent_reader::ask(state, slot, answer)
}

#[unsafe(no_mangle)]
pub extern "C" fn chandrulek_line_fresh(state: &mut [u8], setup: &[u32; 6]) -> u32
    ensures { LineFreshIn state.old setup.now result state.new }
{
    lent_line::line_fresh(state, setup)
}

#[unsafe(no_mangle)]
pub extern "C" fn chandrulek_take(state: &mut [u8], piece: &[u8], answer: &mut [u64; 8]) -> u32
    ensures { TakeIn state.old piece.now result state.new answer.new }
{
    lent_line::take(state, piece, answer)
}

#[unsafe(no_mangle)]
pub extern "C" fn chandrulek_line_load(state: &mut [u8], image: &[i32], current: usize) -> u32
    ensures { LineLoadIn state.old image.now current result state.new }
{
    lent_line::line_load(state, image, current)
}

#[unsafe(no_mangle)]
pub extern "C" fn chandrulek_line_ask(state: &[u8], slot: usize, answer: &mut [i32; 7]) -> u32
    ensures { LineAskIn state.now slot result answer.new }
{
    lent_line::line_ask(state, slot, answer)
}
