//! Laws over the definitions alone. Each is the contract of a function that does nothing.
ghost use Rattle.print_pages_spec.specs.Laws.{CallsResolve, CallsShorten, CallsGoOn, DepthComesBack, DepthStays};
ghost use Rattle.print_pages_spec.specs.Utf8.{TextStays};

/// The calls of a writer, one after another, write and mark what the pieces are resolved to: where each
/// semicolon stands, where those before `}` go, and where one waits when the pieces begin.
pub fn calls_resolve_pieces()
    ensures standing { CallsResolve }
    ensures shortened { CallsShorten }
    ensures waiting { CallsGoOn }
{}

/// A step deeper and one back leave the depth where it was, below 4,294,967,295. There a step deeper
/// changes nothing, and at 0 a step back.
pub fn depth_comes_back()
    ensures back { DepthComesBack }
    ensures ends { DepthStays }
{}

/// Pieces whose texts are UTF-8 are resolved to UTF-8, on a page of UTF-8.
pub fn text_stays()
    ensures { TextStays }
{}
