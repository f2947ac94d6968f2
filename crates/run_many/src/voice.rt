//! What is told on standard error.

use crate::outcome::Refusal;
use crate::tally::Tally;
use run_files::{Told, Trouble};
use run_settings::{Asked, Color, Message, Place, message_json, message_text};
use run_text::row_of;
use std::alloc::{AllocError, Global};
use std::io::IsTerminal;
use std::time::Instant;
use std::{env, io};

/// How a run tells what it has to tell.
#[derive(Drop)]
pub(crate) struct Voice {
    is_json: bool,
    is_quiet: bool,
    has_colors: bool,
    /// When the run began, where it tells on a terminal how far it is.
    began: Option<Instant>,
    /// After how many milliseconds it tells so next.
    next: u64,
    /// Whether the line that tells so stands on the terminal.
    has_line: bool,
}

/// After how many milliseconds a run tells first how far it is, and how many go by until it tells so again.
const FIRST: u64 = 500;

const STEP: u64 = 100;

/// What takes a line away from a terminal.
const CLEAR: &str = "\r\u{1b}[K";

/// When a run begins that tells how far it is.
fn beginning(rt: &HostRuntime, asked: &Asked) -> Option<Instant> {
    if asked.is_json || asked.is_quiet || !rt.stderr().is_terminal() {
        return None;
    }
    Instant::now(rt).ok()
}

/// How many milliseconds went by since then.
fn milliseconds_since(rt: &HostRuntime, began: Instant) -> u64 {
    match Instant::now(rt) {
        Ok(now) => {
            let age = now.saturating_duration_since(began);
            age.as_secs()
                .saturating_mul(1000)
                .saturating_add(u64::from(age.subsec_millis()))
        }
        Err(_) => 0,
    }
}

/// Whether messages have colours.
fn has_colors(rt: &HostRuntime, color: Color) -> bool {
    match color {
        Color::Always => true,
        Color::Never => false,
        Color::Auto => rt.stderr().is_terminal() && env::var(rt, "NO_COLOR").is_err(),
    }
}

/// The longest front of bytes that is text.
pub(crate) fn text_of(bytes: &[u8]) -> &str {
    match std::str::from_utf8(bytes) {
        Ok(text) => text,
        Err(error) => {
            let front = bytes.get(..error.valid_up_to()).unwrap_or(b"");
            std::str::from_utf8(front).unwrap_or("")
        }
    }
}

impl Voice {
    /// The voice that is asked for.
    pub(crate) fn new(rt: &HostRuntime, asked: &Asked) -> Voice {
        Voice {
            is_json: asked.is_json,
            is_quiet: asked.is_quiet,
            has_colors: has_colors(rt, asked.color),
            began: beginning(rt, asked),
            next: FIRST,
            has_line: false,
        }
    }

    /// Takes the line away that tells how far the run is.
    pub(crate) fn clear(&mut self, rt: &HostRuntime) {
        if self.has_line {
            let _ = rt.eprint(CLEAR);
            self.has_line = false;
        }
    }

    /// Tells on a terminal how far the run is, where it goes on for long.
    pub(crate) fn progress(&mut self, rt: &HostRuntime, done: u64, files: usize) {
        let Some(began) = self.began else {
            return;
        };
        let now = milliseconds_since(rt, began);
        if now >= self.next {
            let _ = eprint!(rt; "{CLEAR}{done} of {files} files");
            self.next = now.saturating_add(STEP);
            self.has_line = true;
        }
    }

    /// A message as it is written.
    fn written(&self, alloc: Global, message: &Message<'_>) -> Result<String, AllocError> {
        if self.is_json {
            message_json(alloc, message)
        } else {
            message_text(alloc, message, self.has_colors)
        }
    }

    /// Tells a message. That it may not be told changes nothing.
    pub(crate) fn tell(&mut self, rt: &HostRuntime, message: &Message<'_>) {
        self.clear(rt);
        match self.written(rt.alloc(), message) {
            Ok(text) => {
                let _ = rt.eprint(text.as_str());
            }
            Err(_) => self.memory(rt),
        }
    }

    /// Tells that memory ran out.
    pub(crate) fn memory(&mut self, rt: &HostRuntime) {
        self.clear(rt);
        let _ = rt.eprintln("out of memory");
    }

    /// Tells of a path.
    pub(crate) fn say<'x>(&mut self, rt: &HostRuntime, path: &'x str, text: &'x str) {
        self.tell(
            rt,
            &Message {
                path,
                place: None,
                row: None,
                text,
            },
        );
    }

    /// Tells why a text is refused.
    pub(crate) fn refusal<'x>(
        &mut self,
        rt: &HostRuntime,
        path: &'x str,
        bytes: &'x [u8],
        refusal: Refusal,
    ) {
        let place = Place {
            line: u64::from(refusal.place.line).saturating_add(1),
            column: u64::from(refusal.place.col).saturating_add(1),
        };
        self.tell(
            rt,
            &Message {
                path,
                place: Some(place),
                row: Some(row_of(text_of(bytes), refusal.at)),
                text: refusal.message,
            },
        );
    }

    /// Tells what the system refuses.
    pub(crate) fn system(&mut self, rt: &HostRuntime, path: &str, error: &io::Error) {
        if error.kind() == io::ErrorKind::OutOfMemory {
            return self.memory(rt);
        }
        match format!(in rt.alloc(); "{error}") {
            Ok(text) => self.say(rt, path, text.as_str()),
            Err(_) => self.memory(rt),
        }
    }

    /// Tells what is wrong with a settings file.
    pub(crate) fn settings<'x>(
        &mut self,
        rt: &HostRuntime,
        path: &'x str,
        line: u64,
        column: u64,
        text: &'x str,
    ) {
        self.tell(
            rt,
            &Message {
                path,
                place: Some(Place { line, column }),
                row: None,
                text,
            },
        );
    }

    /// Tells what is wrong with a path.
    pub(crate) fn trouble(&mut self, rt: &HostRuntime, path: &str, trouble: &Trouble) {
        if trouble.is_memory() {
            return self.memory(rt);
        }
        match format!(in rt.alloc(); "{trouble}") {
            Ok(text) => self.say(rt, path, text.as_str()),
            Err(_) => self.memory(rt),
        }
    }

    /// Tells what is told of a path.
    pub(crate) fn told(&mut self, rt: &HostRuntime, told: &Told) {
        self.trouble(rt, told.path.as_str(), &told.trouble);
    }

    /// Tells at the end what became of the files.
    pub(crate) fn summary(&mut self, rt: &HostRuntime, tally: Tally, change: Option<&str>) {
        self.clear(rt);
        if self.is_quiet || self.is_json {
            return;
        }
        let Tally {
            files,
            changed,
            refused,
            failed,
        } = tally;
        let s = if files == 1 { "" } else { "s" };
        let _ = match change {
            Some(word) => eprintln!(rt;
                "{files} file{s}, {changed} {word}, {refused} refused, {failed} failed"
            ),
            None => eprintln!(rt; "{files} file{s}, {refused} refused, {failed} failed"),
        };
    }
}
