//! How an edition is written and read: `es3`, `es5`, `es2015` and so on, and `esnext`.

use base_token::EsVersion;
use serde::{Deserialize, Deserializer, Format, Serialize, Serializer};
use std::alloc::Global;

/// An edition by its name.
#[derive(Clone, Copy, Serialize, Deserialize)]
#[serde(rename_all = "lowercase")]
enum Edition {
    Es3,
    Es5,
    Es2015,
    Es2016,
    Es2017,
    Es2018,
    Es2019,
    Es2020,
    Es2021,
    Es2022,
    EsNext,
}

/// The edition of a name.
fn named(edition: EsVersion) -> Edition {
    match edition {
        EsVersion::Es3 => Edition::Es3,
        EsVersion::Es5 => Edition::Es5,
        EsVersion::Es2015 => Edition::Es2015,
        EsVersion::Es2016 => Edition::Es2016,
        EsVersion::Es2017 => Edition::Es2017,
        EsVersion::Es2018 => Edition::Es2018,
        EsVersion::Es2019 => Edition::Es2019,
        EsVersion::Es2020 => Edition::Es2020,
        EsVersion::Es2021 => Edition::Es2021,
        EsVersion::Es2022 => Edition::Es2022,
        EsVersion::EsNext => Edition::EsNext,
    }
}

/// The edition that a name stands for.
fn meant(edition: Edition) -> EsVersion {
    match edition {
        Edition::Es3 => EsVersion::Es3,
        Edition::Es5 => EsVersion::Es5,
        Edition::Es2015 => EsVersion::Es2015,
        Edition::Es2016 => EsVersion::Es2016,
        Edition::Es2017 => EsVersion::Es2017,
        Edition::Es2018 => EsVersion::Es2018,
        Edition::Es2019 => EsVersion::Es2019,
        Edition::Es2020 => EsVersion::Es2020,
        Edition::Es2021 => EsVersion::Es2021,
        Edition::Es2022 => EsVersion::Es2022,
        Edition::EsNext => EsVersion::EsNext,
    }
}

/// Writes an edition.
pub fn serialize<S: Serializer>(edition: &EsVersion, out: &mut S) -> Result<(), S::Error> {
    named(*edition).serialize(out)
}

/// Reads an edition.
pub fn deserialize<F: Format>(
    alloc: Global,
    from: &mut Deserializer<'_, '_, F>,
) -> Result<EsVersion, F::Error> {
    let edition = Edition::deserialize(alloc, from)?;
    Ok(meant(edition))
}
