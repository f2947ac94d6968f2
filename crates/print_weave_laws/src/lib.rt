//! What stands between the tokens of a text, and what else may stand there: white space, ends of lines and comments put between
//! tokens change no token; where the comments of a text go when it is laid out anew; and how they are written and found again.
//! The functions here are laws alone.
#![tactic(auto)]

ghost use Rattle.print_weave_laws.specs.Laws.{AllAreWritten, AllStay, FoundAreNotes, GapsAreSkipped, GapsAreTheirOwn, NotesAreTold, RunsAreGaps, TidyEndsLines, TidyStays, TokensStay, WrittenAreTrivia};

/// Law: what stands between two tokens is the whole run of trivia there, every run is such, and its comments are those that
/// a reader finds.
#[tactic(auto, using(crate::proofs::Gaps::gaps_are_skipped, crate::proofs::Gaps::runs_are_gaps))]
pub fn gaps_law()
    ensures skipped { GapsAreSkipped }
    ensures runs { RunsAreGaps }
{}

/// Law: tokens that stand in a text stand in the text with other trivia between them, where it may stand.
#[tactic(auto, using(crate::proofs::Inserting::tokens_stay))]
pub fn insertion_law()
    ensures { TokensStay }
{}

/// Law: each gap of a text that is laid out as it was is itself.
#[tactic(auto, using(crate::proofs::Addresses::gaps_are_their_own))]
pub fn address_law()
    ensures { GapsAreTheirOwn }
{}

/// Law: each comment is written once, in the order of the source; and where each gap is its own target, each has what it had.
#[tactic(auto, using(crate::proofs::Placing::all_are_written, crate::proofs::Placing::all_stay))]
pub fn placing_law()
    ensures once { AllAreWritten }
    ensures stay { AllStay }
{}

/// Law: the comments of a gap, with the line ends before each and behind the last, are found as they are written, and what
/// is tidy stays.
#[tactic(auto, using(crate::proofs::Notes::notes_are_told, crate::proofs::Notes::tidy_stays))]
pub fn notes_law()
    ensures told { NotesAreTold }
    ensures tidy { TidyStays }
{}

/// Law: what is found in a gap is comments; behind what is tidy lines end; and what is written of such comments is trivia, which
/// begins with a blank or the end of a line and breaks the line as it says.
#[tactic(auto, using(crate::proofs::Notes::found_are_notes, crate::proofs::Notes::tidy_ends_lines, crate::proofs::Notes::written_are_trivia))]
pub fn writing_law()
    ensures found { FoundAreNotes }
    ensures lines { TidyEndsLines }
    ensures trivia { WrittenAreTrivia }
{}
