//! Laws of what a run answers. The functions here are laws alone.
ghost use Rattle.ecma_front.specs.Alike.{OneRefusal};

/// Law: the same bytes are refused by one fault, by the same settings, however a reader hands them out: of one kind, with
/// the same length of what is UTF-8, and the same error where a tree reads the text.
pub fn one_refusal_law()
    ensures { OneRefusal }
{}
