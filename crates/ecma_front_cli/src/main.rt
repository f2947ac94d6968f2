//! `ecma-front`: reads a program from a file or from standard input, and
//! writes it to standard output. What a command line means and what is answered is the library's.
#![tactic(auto)]

use ecma_front::{CliFault, Counted, Invocation, answer, invocation};
use std::fs::File;
use std::io::ErrorKind;
use std::process::ExitCode;
use std::{env, io};

/// The status of a command line that is refused.
const REFUSED: u8 = 2;

/// The status of a run that something outside the text kept from its end.
const FAILED: u8 = 3;

/// Prints a line to standard error. That it may not be printed changes nothing.
fn tell(rt: &impl Eprint, message: &str) {
    let _ = rt.eprintln(message);
}

/// Runs what the command line asks for, on its file or on standard input.
fn run(rt: &HostRuntime, asked: &Invocation) -> u8 {
    let mut output = Counted::new(rt.stdout());
    let mut errors = Counted::new(rt.stderr());
    match &asked.path {
        None => {
            let mut input = Counted::new(rt.stdin());
            answer(rt.alloc(), asked, &mut input, &mut output, &mut errors)
        }
        Some(path) => match File::open(rt, path.as_str()) {
            Ok(file) => {
                let mut input = Counted::new(file);
                answer(rt.alloc(), asked, &mut input, &mut output, &mut errors)
            }
            Err(_) => {
                tell(rt, "read failed");
                FAILED
            }
        },
    }
}

/// The words of the command line.
fn words(rt: &HostRuntime) -> io::Result<Vec<String>> {
    Ok(env::args(rt)?.collect(rt.alloc())?)
}

/// Tells why a command line has no words, and answers the status: an argument is no text, or memory ran out.
fn refuse_words(rt: &HostRuntime, error: &io::Error) -> u8 {
    if error.kind() == ErrorKind::InvalidData {
        tell(
            rt,
            "error: invalid UTF-8 was detected in one or more arguments",
        );
        REFUSED
    } else {
        tell(rt, "out of memory");
        FAILED
    }
}

fn main(rt: HostRuntime) -> ExitCode {
    let status = match words(&rt) {
        Err(error) => refuse_words(&rt, &error),
        Ok(words) => match invocation(rt.alloc(), words) {
            Ok(asked) => run(&rt, &asked),
            Err(CliFault::Refused(text)) => {
                let _ = rt.eprint(text.as_str());
                REFUSED
            }
            Err(CliFault::Memory) => {
                tell(&rt, "out of memory");
                FAILED
            }
        },
    };
    ExitCode::from(status)
}
