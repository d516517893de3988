// The writer for C hosts: include/chandrulek.h's functions, each the call of `lent_writer` of that name. An archive has the functions of one crate, and the compiler joins a call with the code that alone calls it: so the writer's, the readers' and the devices' stand in a crate each.
#![tactic(auto)]

ghost use Rattle.lent_writer.specs.Seen.{Freshens, WritesFrame, WritesAnonymous};

#[unsafe(no_mangle)]
pub extern "C" fn chandrulek_writer_fresh(state: &mut [u8], setup: &[u32; 6], pointer: u32) -> u32
    ensures { Freshens state.old setup.now pointer result state.new }
{
    lent_writer::fresh(state, setup, pointer)
}

#[unsafe(no_mangle)]
pub extern "C" fn chandrulek_write(
    state: &mut [u8],
    frame: &[i32],
    buf: &mut [u8],
    at: usize,
    answer: &mut [u64; 3],
) -> u32
    ensures { WritesFrame state.old frame.now at buf.old result state.new answer.new buf.new }
{
    lent_writer::write(state, frame, buf, at, answer)
}

#[unsafe(no_mangle)]
pub extern "C" fn chandrulek_write_anonymous(
    state: &mut [u8],
    records: &[u8],
    buf: &mut [u8],
    at: usize,
    answer: &mut [u64; 3],
) -> u32
    ensures { WritesAnonymous state.old records.now at buf.old result state.new answer.new buf.new }
{
    lent_writer::write_anonymous(state, records, buf, at, answer)
}
