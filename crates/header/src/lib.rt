// The parts of a stripped header: task, pid, CPU, timestamp, function. Each call takes any text; the pid goes by the task found in it.
#![tactic(auto)]

pub mod cpu;
pub mod dash;
pub mod function;
pub mod stamp;
