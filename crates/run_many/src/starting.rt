//! The begin of a run: the command line, and the files that it means.

use crate::run::Run;
use crate::tally::{FAILED, REFUSED_WORDS};
use run_settings::{Asked, AskingFault, asked};
use std::io::ErrorKind;
use std::{env, io};

/// Prints a text to standard error. That it may not be printed changes nothing.
fn tell(rt: &HostRuntime, text: &str) {
    let _ = rt.eprint(text);
}

/// Tells that memory ran out, and answers the status.
fn tell_memory(rt: &HostRuntime) -> u8 {
    tell(rt, "out of memory\n");
    FAILED
}

/// The words of the command line.
fn words(rt: &HostRuntime) -> io::Result<Vec<String>> {
    Ok(env::args(rt)?.collect(rt.alloc())?)
}

/// Tells why a command line has no words, and answers the status: an argument is no text, or memory ran out.
fn refuse_words(rt: &HostRuntime, error: &io::Error) -> u8 {
    if error.kind() == ErrorKind::InvalidData {
        tell(
            rt,
            "error: invalid UTF-8 was detected in one or more arguments\n",
        );
        REFUSED_WORDS
    } else {
        tell_memory(rt)
    }
}

/// Shows a text that was asked for, and answers the status.
fn show(rt: &HostRuntime, text: &str) -> u8 {
    match rt.print(text) {
        Ok(()) => 0,
        Err(_) => FAILED,
    }
}

/// Tells why a command line asks for no run, and answers the status.
fn refuse(rt: &HostRuntime, fault: &AskingFault) -> u8 {
    match fault {
        AskingFault::Shown(text) => show(rt, text.as_str()),
        AskingFault::Refused(text) => {
            tell(rt, text.as_str());
            REFUSED_WORDS
        }
        AskingFault::Memory => tell_memory(rt),
    }
}

/// What the command line asks for, or the status of one that asks for nothing.
fn asked_for(rt: &HostRuntime) -> Result<Asked, u8> {
    match words(rt) {
        Err(error) => Err(refuse_words(rt, &error)),
        Ok(words) => match asked(rt.alloc(), words.as_slice()) {
            Ok(asked) => Ok(asked),
            Err(fault) => {
                let status = refuse(rt, &fault);
                drop(fault);
                Err(status)
            }
        },
    }
}

/// Begins what the command line asks for: the run, and the files that it is over.
///
/// # Errors
///
/// The status of a command line that asks for no run; what there is to tell is told.
pub fn begin(rt: &HostRuntime) -> Result<(Run, Vec<String>), u8> {
    let mut run = Run::new(rt, asked_for(rt)?);
    match run.find(rt) {
        Ok(files) => Ok((run, files)),
        Err(status) => {
            drop(run);
            Err(status)
        }
    }
}
