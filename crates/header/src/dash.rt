// Task and pid: both go by a dash in the header's first run without byte 32.
ghost use Rattle.std.specs.Prelude.{◌≡◌, true, Some, ◌≤◌, ◌<◌, length};
ghost use Rattle.text.specs.Place.{last_place};
ghost use Rattle.header.specs.Dash.{dash_at, task_of, pid_of};

use text::class::is_digit;
use text::number::{MAX_32, leading};
use text::place::{byte_at, last};
use text::run::until;

// The task's length: it is all before the last dash in the first run. A dash at place 0 has no byte before it, so it is none; and where the last dash
// stands there, no other does.
pub fn parse_task(h: &[u8]) -> Option<usize>
    ensures { result ≡ task_of h.now }
{
    let run = until(h, b' ', 0);
    let dash = last(&h[..run], b'-')?;
    (0 < dash).then_some(dash)
}

// The whole digit run behind the last dash that has a byte before it and a digit behind it. The task's dash is the last of all in the run,
// so no dash is sought behind it. Asked for: where the task ends, which `read_head` has of `parse_task`.
pub fn parse_pid(h: &[u8], task: usize) -> Option<u64>
    requires { task_of h.now ≡ Some task }
    ensures { result ≡ pid_of h.now }
{
    let dash = last_dash(h, task + 1)?;
    leading(h, dash + 1, MAX_32)
}

// The last dash below a place that has a byte before it and a digit behind it.
fn last_dash(h: &[u8], to: usize) -> Option<usize>
    requires { to ≤ length h.now }
    ensures { result ≡ last_place (dash_at true h.now) to }
{
    for k in (0..to).rev() {
        if is_dash(h, k) {
            return Some(k);
        }
    }
    None
}

#[tactic(auto, unfolding(crate::specs::Dash::dash_at))]
fn is_dash(h: &[u8], k: usize) -> bool
    requires { k < length h.now }
    ensures { result ≡ dash_at true h.now k }
{
    0 < k && h[k] == b'-' && is_digit(byte_at(h, k + 1))
}
