// The pod, the force stick and the recorder for C hosts: include/chandrulek.h's functions, each the call of `lent_pod` or `lent_devices` of that name.
#![tactic(auto)]

ghost use Rattle.lent_pod.specs.Pods.{PodFresh, PodStepped};
ghost use Rattle.lent_pod.specs.Orders.{CommandWritten, CommandRead};
ghost use Rattle.lent_devices.specs.Blocks.{BlockMade, BlocksLaid, BlockRead};
ghost use Rattle.lent_devices.specs.Sticks.{ForceWritten, ForceRead};

#[unsafe(no_mangle)]
pub extern "C" fn chandrulek_pod_fresh(state: &mut [u8]) -> u32
    ensures { PodFresh state.old result state.new }
{
    lent_pod::pod_fresh(state)
}

#[unsafe(no_mangle)]
pub extern "C" fn chandrulek_pod_step(state: &mut [u8], byte: u8, answer: &mut [i32; 7]) -> u32
    ensures { PodStepped state.old byte result state.new answer.new }
{
    lent_pod::pod_step(state, byte, answer)
}

#[unsafe(no_mangle)]
pub extern "C" fn chandrulek_command_write(
    pod: &mut [u8],
    command: &[u32; 7],
    buf: &mut [u8],
    at: usize,
    answer: &mut [u64; 1],
) -> u32
    ensures { CommandWritten pod.old command.now at buf.old result pod.new answer.new buf.new }
{
    lent_pod::command_write(pod, command, buf, at, answer)
}

#[unsafe(no_mangle)]
pub extern "C" fn chandrulek_command_read(bytes: &[u8], at: usize, answer: &mut [u32; 8]) -> usize
    ensures { CommandRead bytes.now at result answer.new }
{
    lent_pod::command_read(bytes, at, answer)
}

#[unsafe(no_mangle)]
pub extern "C" fn chandrulek_force_write(
    report: &[i32; 6],
    buf: &mut [u8],
    at: usize,
    answer: &mut [u64; 1],
) -> u32
    ensures { ForceWritten report.now at buf.old result answer.new buf.new }
{
    lent_devices::force_write(report, buf, at, answer)
}

#[unsafe(no_mangle)]
pub extern "C" fn chandrulek_force_read(bytes: &[u8], at: usize, answer: &mut [i32; 7]) -> usize
    ensures { ForceRead bytes.now at result answer.new }
{
    lent_devices::force_read(bytes, at, answer)
}

#[unsafe(no_mangle)]
pub extern "C" fn chandrulek_make_block(number: u32, events: &[u8], block: &mut [u8]) -> u32
    ensures { BlockMade number events.now block.old result block.new }
{
    lent_devices::make_block(number, events, block)
}

#[unsafe(no_mangle)]
pub extern "C" fn chandrulek_lay_blocks(
    number: u32,
    events: &[u8],
    buf: &mut [u8],
    at: usize,
    answer: &mut [u64; 3],
) -> u32
    ensures { BlocksLaid number events.now at buf.old result answer.new buf.new }
{
    lent_devices::lay_blocks(number, events, buf, at, answer)
}

#[unsafe(no_mangle)]
pub extern "C" fn chandrulek_read_block(block: &[u8], number: u32, answer: &mut [u64; 2]) -> u32
    ensures { BlockRead number block.now result answer.new }
{
    lent_devices::read_block(block, number, answer)
}
