// The three streams of a program, which `main` has of its runtime.
use std::io::{Stderr, Stdin, Stdout};
use std::rt::HostRuntime;

#[derive(Clone, Copy)]
pub struct Streams {
    pub input: Stdin,
    pub output: Stdout,
    pub error: Stderr,
}

pub fn streams_of(rt: &HostRuntime) -> Streams {
    Streams {
        input: rt.stdin(),
        output: rt.stdout(),
        error: rt.stderr(),
    }
}
