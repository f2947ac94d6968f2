//! A run: each file in turn.

use crate::around::{AroundFault, Known};
use crate::maps::{source_map, with_map, with_path};
use crate::outcome::{Laid, Opened, Outcome, Refusal};
use crate::output::Output;
use crate::places::{destination, is_written};
use crate::tally::{FAILED, REFUSED_WORDS, Tally};
use crate::voice::{Voice, text_of};
use print_source_map::MapError;
use run_command::{Goal, Style};
use run_files::{
    Found, Told, Trouble, create, find, name_of, read_file, remove_old, replace as replace_file,
};
use run_settings::{Asked, Doing, Goals, MapTo, Settings, SettingsFault, Task, config_json};
use run_text::{blocks, lines, patch};
use std::alloc::{AllocError, Global};
use std::collections::BTreeSet;
use std::io::Read;
use std::mem::replace;

/// What is told where several files have no place to go to.
const SEVERAL: &str =
    "error: several files: say where each goes, as by --write, --check, --diff, --out-dir or --suffix\n";

/// The name of standard input.
const INPUT: &str = "standard input";

/// A run, and what came of it so far.
#[derive(Drop)]
pub struct Run {
    asked: Asked,
    voice: Voice,
    tally: Tally,
    known: Known,
    output: Output,
    /// The paths to which something was written.
    taken: BTreeSet<String>,
    /// Whether it reads standard input.
    reads_input: bool,
    /// How many files there are.
    files: usize,
}

/// How a text changes.
fn change_of(alloc: Global, name: &str, old: &[u8], new: &[u8]) -> Result<Vec<u8>, AllocError> {
    let old = lines(alloc, old)?;
    let new = lines(alloc, new)?;
    let blocks = blocks(alloc, &old, &new)?;
    patch(alloc, name, &old, &new, &blocks)
}

/// Whether standard input is read.
fn reads_input(asked: &Asked) -> bool {
    asked.paths.iter().any(|path| path.as_str() == "-")
}

/// Whether what is written of files goes to files.
fn has_places(asked: &Asked) -> bool {
    asked.out_file.is_some() || asked.out_folder.is_some() || asked.suffix.is_some()
}

/// Whether several files go to one place.
fn is_crowded(asked: &Asked, files: usize) -> bool {
    let goes_apart = asked.out_folder.is_some() || asked.suffix.is_some();
    let prints = asked.doing == Doing::Print && !goes_apart;
    files > 1 && prints && asked.task != Task::Read && !asked.prints_config
}

/// What the summary says of files that changed; nothing where there is no summary.
fn change_word(asked: &Asked, files: u64) -> Option<Option<&'static str>> {
    if asked.prints_config {
        return None;
    }
    match asked.doing {
        Doing::Write => Some(Some("written")),
        Doing::Check => Some(Some("would change")),
        Doing::Print if has_places(asked) => Some(Some("written")),
        Doing::Print if asked.task == Task::Read && files > 1 => Some(None),
        _ => None,
    }
}

/// A name where it is a path.
fn path_in(name: &str, is_file: bool) -> Option<&str> {
    if is_file { Some(name) } else { None }
}

/// What standard input is called.
fn input_name(alloc: Global, asked: &Asked) -> Result<String, AllocError> {
    match &asked.stdin_path {
        Some(path) => String::from_str(alloc, path.as_str()),
        None => String::from_str(alloc, INPUT),
    }
}

/// The bytes of standard input.
fn input_bytes(rt: &HostRuntime) -> Result<Vec<u8>, Trouble> {
    let mut bytes = Vec::new(rt.alloc());
    let _ = rt.stdin().read_to_end(&mut bytes)?;
    Ok(bytes)
}

impl Run {
    /// A run that nothing came of yet.
    pub(crate) fn new(rt: &HostRuntime, asked: Asked) -> Run {
        Run {
            voice: Voice::new(rt, &asked),
            reads_input: reads_input(&asked),
            asked,
            tally: Tally::NONE,
            known: Known::new(),
            output: Output::new(),
            taken: BTreeSet::new(rt.alloc()),
            files: 0,
        }
    }

    /// Tells that memory ran out, and counts it.
    fn memory(&mut self, rt: &HostRuntime) {
        self.tally.fail();
        self.voice.memory(rt);
    }

    /// Tells what is wrong with a path, and counts it.
    fn tell_trouble(&mut self, rt: &HostRuntime, path: &str, trouble: &Trouble) {
        if trouble.is_failure() {
            self.tally.fail();
        }
        self.voice.trouble(rt, path, trouble);
    }

    /// The same of what nobody else asks for.
    fn trouble(&mut self, rt: &HostRuntime, path: &str, trouble: Trouble) {
        self.tell_trouble(rt, path, &trouble);
        drop(trouble);
    }

    /// Tells of a path what failed, and counts it.
    fn failure(&mut self, rt: &HostRuntime, path: &str, what: &str) {
        self.tally.fail();
        self.voice.say(rt, path, what);
    }

    /// Writes to standard output.
    fn print(&mut self, rt: &HostRuntime, bytes: &[u8]) {
        self.voice.clear(rt);
        self.output.write(rt, bytes);
    }

    /// Writes to standard output what there is memory for.
    fn print_text(&mut self, rt: &HostRuntime, text: Result<String, AllocError>) {
        match text {
            Ok(text) => self.print(rt, text.as_bytes()),
            Err(_) => self.memory(rt),
        }
    }

    /// Tells why it is not known what stands around a file, and counts it.
    fn around_fault(&mut self, rt: &HostRuntime, path: &str, fault: &AroundFault) {
        self.tally.fail();
        match fault {
            AroundFault::Before => {}
            AroundFault::Told(told) => self.voice.told(rt, told),
            AroundFault::System(error) => self.voice.system(rt, path, error),
            AroundFault::Settings(path, fault) => self.settings_fault(rt, path.as_str(), fault),
        }
    }

    /// Tells what is wrong with a settings file.
    fn settings_fault(&mut self, rt: &HostRuntime, path: &str, fault: &SettingsFault) {
        match fault {
            SettingsFault::Memory => self.voice.memory(rt),
            SettingsFault::Wrong {
                line,
                column,
                message,
            } => self
                .voice
                .settings(rt, path, *line, *column, message.as_str()),
        }
    }

    /// The settings that hold for a file, and as what it is read.
    fn settings(&mut self, rt: &HostRuntime, path: Option<&str>) -> Option<(Settings, Goals)> {
        let Some(path) = path else {
            return Some((self.asked.settings, Goals::Either));
        };
        match self.known.around(rt, path) {
            Ok((said, goals)) => Some((self.asked.settings.over(said), goals)),
            Err(fault) => {
                self.around_fault(rt, path, &fault);
                drop(fault);
                None
            }
        }
    }

    /// The settings that hold for a file, and as what it is read where these say it.
    fn settled(&mut self, rt: &HostRuntime, path: Option<&str>) -> Option<(Settings, Goals)> {
        let (settings, goals) = self.settings(rt, path)?;
        match settings.goal {
            Some(goal) => Some((settings, Goals::One(goal))),
            None => Some((settings, goals)),
        }
    }

    /// Writes the settings that hold for a file.
    fn print_config(&mut self, rt: &HostRuntime, path: Option<&str>) {
        if let Some((settings, _)) = self.settled(rt, path) {
            let options = settings.options(Style::Format, Goal::Module);
            self.print_text(rt, config_json(rt.alloc(), &options));
        }
    }

    /// Names a file that would change.
    fn name(&mut self, rt: &HostRuntime, name: &str) {
        self.tally.change();
        self.print_text(rt, format!(in rt.alloc(); "{name}\n"));
    }

    /// Writes how a file would change.
    fn print_change(&mut self, rt: &HostRuntime, opened: &Opened, new: &str) {
        let name = opened.name.as_str();
        match change_of(rt.alloc(), name, opened.bytes.as_slice(), new.as_bytes()) {
            Ok(change) => self.print(rt, change.as_slice()),
            Err(_) => self.memory(rt),
        }
    }

    /// Writes a file in its place.
    fn write(&mut self, rt: &HostRuntime, opened: &Opened, new: &str) {
        let path = opened.name.as_str();
        match replace_file(rt, path, opened.bytes.as_slice(), new.as_bytes()) {
            Ok(()) => self.tally.change(),
            Err(trouble) => self.trouble(rt, path, trouble),
        }
    }

    /// Whether a path takes what is written of a file: no other was written there, and it is not the file's own.
    fn takes(&mut self, alloc: Global, opened: &Opened, to: &str) -> Result<bool, AllocError> {
        if opened.path() == Some(to) {
            return Ok(false);
        }
        Ok(self.taken.insert(String::from_str(alloc, to)?)?)
    }

    /// Writes a text to a path, where it isn't there already.
    fn put(&mut self, rt: &HostRuntime, to: &str, text: &[u8]) {
        if let Ok(there) = read_file(rt, to)
            && there.as_slice() == text
        {
            return;
        }
        match create(rt, to, text) {
            Ok(()) => self.tally.change(),
            Err(trouble) => self.trouble(rt, to, trouble),
        }
    }

    /// Writes what is written of a file to the path that it goes to.
    fn place(&mut self, rt: &HostRuntime, opened: &Opened, to: &str, text: &[u8]) {
        match self.takes(rt.alloc(), opened, to) {
            Ok(true) => self.put(rt, to, text),
            Ok(false) => self.failure(
                rt,
                opened.name.as_str(),
                "what is written of it would take the place of another file",
            ),
            Err(_) => self.memory(rt),
        }
    }

    /// Writes bytes to standard output, or to a path.
    fn send(&mut self, rt: &HostRuntime, opened: &Opened, to: Option<&str>, bytes: &[u8]) {
        match to {
            None => self.print(rt, bytes),
            Some(to) => self.place(rt, opened, to, bytes),
        }
    }

    /// Tells why there is no source map of a file, and counts it.
    fn map_fault(&mut self, rt: &HostRuntime, name: &str, fault: MapError) {
        match fault {
            MapError::Memory => self.memory(rt),
            _ => self.failure(rt, name, "its places are too far for a source map"),
        }
    }

    /// A text with where its source map is, which is written where it goes to a file beside it.
    fn mapped(
        &mut self,
        rt: &HostRuntime,
        opened: &Opened,
        to: &str,
        text: &str,
        map: &str,
    ) -> Result<String, AllocError> {
        if self.asked.source_map == Some(MapTo::Inline) {
            return with_map(rt.alloc(), text, map);
        }
        let path = format!(in rt.alloc(); "{to}.map")?;
        self.place(rt, opened, path.as_str(), map.as_bytes());
        with_path(rt.alloc(), text, name_of(path.as_str()))
    }

    /// Writes a text that is laid out where it goes, with where its source map is.
    fn send_mapped(
        &mut self,
        rt: &HostRuntime,
        opened: &Opened,
        to: Option<&str>,
        text: &str,
        map: &str,
    ) {
        let place = to.unwrap_or(opened.name.as_str());
        match self.mapped(rt, opened, place, text, map) {
            Ok(text) => self.send(rt, opened, to, text.as_bytes()),
            Err(_) => self.memory(rt),
        }
    }

    /// Writes a text that is laid out where it goes.
    fn deliver(
        &mut self,
        rt: &HostRuntime,
        opened: &Opened,
        laid: &Laid,
        to: Option<&str>,
        source: &str,
    ) {
        let new = laid.text(source);
        if !opened.has_map {
            return self.send(rt, opened, to, new.as_bytes());
        }
        let name = opened.name.as_str();
        let place = to.unwrap_or(name);
        match source_map(rt.alloc(), source, laid.mappings.as_slice(), name, place) {
            Ok(map) => self.send_mapped(rt, opened, to, new, map.as_str()),
            Err(fault) => self.map_fault(rt, name, fault),
        }
    }

    /// Writes a text that is laid out where it goes.
    fn take_text(&mut self, rt: &HostRuntime, opened: &Opened, laid: &Laid) {
        let source = text_of(opened.bytes.as_slice());
        match destination(rt.alloc(), &self.asked, opened.name.as_str()) {
            Err(_) => self.memory(rt),
            Ok(None) => self.deliver(rt, opened, laid, None, source),
            Ok(Some(to)) => self.deliver(rt, opened, laid, Some(to.as_str()), source),
        }
    }

    /// Does with a text that changes what is asked for.
    fn take_change(&mut self, rt: &HostRuntime, opened: &Opened, new: &str) {
        match self.asked.doing {
            Doing::Write => self.write(rt, opened, new),
            Doing::Check | Doing::List => self.name(rt, opened.name.as_str()),
            Doing::Print | Doing::Diff => self.print_change(rt, opened, new),
        }
    }

    /// Does with a text what is asked for, where it is known what it is laid out as.
    fn take_laid(&mut self, rt: &HostRuntime, opened: &Opened, laid: &Laid) {
        if self.asked.doing == Doing::Print {
            return self.take_text(rt, opened, laid);
        }
        if let Some(new) = &laid.other {
            self.take_change(rt, opened, new.as_str());
        }
    }

    /// Says whether a text is a script or a module.
    fn take_goal(&mut self, rt: &HostRuntime, name: &str, goal: Goal) {
        let kind = match goal {
            Goal::Script => "a script",
            Goal::Module => "a module",
        };
        self.print_text(rt, format!(in rt.alloc(); "{name}: {kind}\n"));
    }

    /// Tells why a text is refused, and counts it.
    fn refuse(&mut self, rt: &HostRuntime, opened: &Opened, refusal: Refusal) {
        self.tally.refuse();
        self.voice
            .refusal(rt, opened.name.as_str(), opened.bytes.as_slice(), refusal);
    }

    /// Does with a text what is asked for, where it is known what comes of it.
    pub fn take(&mut self, rt: &HostRuntime, opened: Opened, outcome: Outcome) {
        let name = opened.name.as_str();
        match &outcome {
            Outcome::Laid(laid) => self.take_laid(rt, &opened, laid),
            Outcome::Read(goal) => self.take_goal(rt, name, *goal),
            Outcome::Refused(refusal) => self.refuse(rt, &opened, *refusal),
            Outcome::Failed(message) => self.failure(rt, name, message),
        }
        drop(outcome);
        drop(opened);
    }

    /// A text of this name that was read, and what is asked of it.
    fn asked_of(
        &self,
        name: String,
        is_file: bool,
        bytes: Vec<u8>,
        said: (Settings, Goals),
    ) -> Opened {
        let (settings, goals) = said;
        Opened {
            name,
            is_file,
            bytes,
            task: self.asked.task,
            settings,
            goals,
            has_map: self.asked.source_map.is_some(),
            spares_comments: self.asked.doing == Doing::Write && !self.asked.loses_comments,
        }
    }

    /// Takes the bytes of a file, or of standard input, by its name.
    fn take_bytes(
        &mut self,
        rt: &HostRuntime,
        name: String,
        is_file: bool,
        bytes: Vec<u8>,
    ) -> Option<Opened> {
        match self.settled(rt, path_in(name.as_str(), is_file)) {
            Some(said) => Some(self.asked_of(name, is_file, bytes, said)),
            None => None,
        }
    }

    /// Opens standard input.
    fn open_input(&mut self, rt: &HostRuntime) -> Option<Opened> {
        let is_file = self.asked.stdin_path.is_some();
        let Ok(name) = input_name(rt.alloc(), &self.asked) else {
            self.memory(rt);
            return None;
        };
        if self.asked.prints_config {
            self.print_config(rt, path_in(name.as_str(), is_file));
            return None;
        }
        match input_bytes(rt) {
            Ok(bytes) => self.take_bytes(rt, name, is_file, bytes),
            Err(trouble) => {
                self.trouble(rt, INPUT, trouble);
                None
            }
        }
    }

    /// Opens a file.
    fn open_file(&mut self, rt: &HostRuntime, path: &str) -> Option<Opened> {
        self.tally.files = self.tally.files.saturating_add(1);
        if self.asked.prints_config {
            self.print_config(rt, Some(path));
            return None;
        }
        let Ok(name) = String::from_str(rt.alloc(), path) else {
            self.memory(rt);
            return None;
        };
        match read_file(rt, path) {
            Ok(bytes) => self.take_bytes(rt, name, true, bytes),
            Err(trouble) => {
                self.trouble(rt, path, trouble);
                None
            }
        }
    }

    /// Reads a file of the run, and says what is asked of its text; nothing where nothing is, or where it can't be read, which is told.
    pub fn open(&mut self, rt: &HostRuntime, path: &str) -> Option<Opened> {
        if self.reads_input {
            return self.open_input(rt);
        }
        if is_written(&self.asked, path) {
            return None;
        }
        self.voice.progress(rt, self.tally.files, self.files);
        self.open_file(rt, path)
    }

    /// Takes away what runs have left, and tells of the paths that mean no file.
    fn take_found(&mut self, rt: &HostRuntime, told: &[Told], left: &[String]) {
        if self.asked.doing == Doing::Write || has_places(&self.asked) {
            remove_old(rt, left);
        }
        for told in told {
            self.tell_trouble(rt, told.path.as_str(), &told.trouble);
        }
    }

    /// The files that the run is over; standard input is one.
    ///
    /// # Errors
    ///
    /// The status where there is no run over them; what there is to tell is told.
    pub(crate) fn find(&mut self, rt: &HostRuntime) -> Result<Vec<String>, u8> {
        if self.reads_input {
            return Ok(replace(&mut self.asked.paths, Vec::new(rt.alloc())));
        }
        let Ok(Found { files, told, left }) = find(rt, &self.asked.paths) else {
            self.memory(rt);
            return Err(FAILED);
        };
        if is_crowded(&self.asked, files.len()) {
            let _ = rt.eprint(SEVERAL);
            return Err(REFUSED_WORDS);
        }
        self.take_found(rt, told.as_slice(), left.as_slice());
        self.files = files.len();
        Ok(files)
    }

    /// The status of the run, which tells how standard output failed.
    fn status(&mut self, rt: &HostRuntime) -> u8 {
        if let Some(error) = self.output.failure() {
            self.voice.system(rt, "standard output", error);
            return FAILED;
        }
        self.tally.status(self.asked.doing == Doing::Check)
    }

    /// Ends the run: tells what became of the files, and answers the status.
    pub fn end(mut self, rt: &HostRuntime) -> u8 {
        self.voice.clear(rt);
        let status = self.status(rt);
        if !self.reads_input
            && let Some(word) = change_word(&self.asked, self.tally.files)
        {
            self.voice.summary(rt, self.tally, word);
        }
        drop(self);
        status
    }
}
