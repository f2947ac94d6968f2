//! The formats of lists.
ghost use Rattle.std.specs.Prelude.{⊤, ◌∷◌, [], codes};

use bitflags::{Flag, Flags, bitflag_items};

/// How the parts of a list stand: on a line or on lines, with what between them and round them.
#[derive(Clone, Copy, PartialEq, Eq, Debug)]
pub struct ListFormat(u16);

bitflag_items! {
    impl ListFormat: u16 {
        const SingleLine = 1;
        const MultiLine = 2;
        const CommaDelimited = 4;
        const AllowTrailingComma = 8;
        const ForceTrailingComma = 16;
        const CanSkipTrailingComma = 32;
        const Indented = 64;
        const SpaceBetweenBraces = 128;
        const SpaceBetweenSiblings = 256;
        const NoSpaceIfEmpty = 512;
    }
}

impl Flags for ListFormat {
    type Bits = u16;

    ghost exact = { ⊤ };

    ghost table = { (codes "SingleLine", 1) ∷ (codes "MultiLine", 2) ∷ (codes "CommaDelimited", 4) ∷ (codes "AllowTrailingComma", 8)
        ∷ (codes "ForceTrailingComma", 16) ∷ (codes "CanSkipTrailingComma", 32) ∷ (codes "Indented", 64) ∷ (codes "SpaceBetweenBraces", 128)
        ∷ (codes "SpaceBetweenSiblings", 256) ∷ (codes "NoSpaceIfEmpty", 512) ∷ [] };

    ghost set_of = { λ f. f.0 };

    fn flags<'a>() -> &'a [Flag<ListFormat>] {
        ListFormat::FLAGS
    }

    fn bits(&self) -> u16 {
        self.0
    }

    fn from_bits_retain(bits: u16) -> ListFormat {
        ListFormat(bits)
    }
}
