//! The editions of the language that a text may be written for.

ghost use Rattle.std.specs.Prelude.{◌≡◌, ◌<◌, ◌↔◌, IsTrue};
ghost use Rattle.std.specs.declared.cmp.Ordering.TheVariants.{Equal, Less};
ghost use Rattle.base_token.specs.Editions.{edition_rank};

/// An edition of ECMA-262, oldest first, and at the end whatever comes next.
#[derive(Clone, Copy, Debug, Default, PartialEq, Eq, PartialOrd, Ord, Hash)]
pub enum EsVersion {
    Es3,
    Es5,
    Es2015,
    Es2016,
    Es2017,
    Es2018,
    Es2019,
    Es2020,
    Es2021,
    Es2022,
    #[default]
    EsNext,
}

/// The name by which compilers know an edition that they write for.
pub type JscTarget = EsVersion;

impl EsVersion {
    ghost use Rattle.base_token.specs.declared.version.EsVersion.TheVariants.{EsNext};

    /// The newest edition.
    pub fn latest() -> EsVersion
        ensures { result ≡ EsNext }
    {
        EsVersion::EsNext
    }
}

/// Law: two editions are equal, in code and in contracts, exactly where neither is older, and the
/// older one is the one that stands first in the list of editions.
pub fn edition_order_law(a: EsVersion, b: EsVersion)
    ensures order { (⟦<EsVersion as Ord>⟧.cmp a b ≡ Equal) ↔ (a ≡ b) }
    ensures equality { IsTrue (⟦<EsVersion as PartialEq>⟧.eq a b) ↔ (a ≡ b) }
    ensures older { (⟦<EsVersion as Ord>⟧.cmp a b ≡ Less) ↔ (edition_rank a < edition_rank b) }
{}
