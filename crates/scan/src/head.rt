// What a header says: numbers 5 to 9.
ghost use Rattle.std.specs.Prelude.{◌≡◌};
ghost use Rattle.refusal.specs.Told.{told};
ghost use Rattle.scan.specs.Head.{head_of};

use header::cpu::parse_cpu;
use header::dash::{parse_pid, parse_task};
use header::function::parse_function;
use header::stamp::parse_timestamp;
use refusal::Refusal;

// Task and function by their places in the header: the task starts it, the function ends it.
#[derive(Clone, Copy)]
pub struct Head {
    pub task: usize,
    pub pid: u32,
    pub cpu: u16,
    pub seconds: u64,
    pub microseconds: u64,
    pub function: usize,
}

#[tactic(auto, unfolding(crate::specs::Head::head_of))]
pub fn read_head(h: &[u8]) -> Result<Head, Refusal>
    ensures { told result ≡ head_of h.now }
{
    let task = parse_task(h).ok_or(Refusal::NoTask)?;
    let pid = parse_pid(h, task).ok_or(Refusal::NoPid)?;
    let cpu = parse_cpu(h).ok_or(Refusal::NoCpu)?;
    let stamp = parse_timestamp(h).ok_or(Refusal::NoTimestamp)?;
    let function = parse_function(h).ok_or(Refusal::NoFunction)?;
    Ok(Head {
        task,
        pid: pid as u32,
        cpu: cpu as u16,
        seconds: stamp.seconds,
        microseconds: stamp.microseconds,
        function,
    })
}
