//! The values of settings by their names.

use base_token::EsVersion;
use run_command::{Goal, Indent, LineEnd, Options};

/// The editions by their names.
pub(crate) static TARGETS: [&str; 9] = [
    "es2015", "es2016", "es2017", "es2018", "es2019", "es2020", "es2021", "es2022", "esnext",
];

/// The steps of indentation by their names.
pub(crate) static INDENTS: [&str; 10] = ["0", "1", "2", "3", "4", "5", "6", "7", "8", "tab"];

/// The line ends by their names.
pub(crate) static LINE_ENDS: [&str; 2] = ["lf", "crlf"];

/// The edition of a name.
pub(crate) fn target_of(name: &str) -> Option<EsVersion> {
    match name {
        "es2015" => Some(EsVersion::Es2015),
        "es2016" => Some(EsVersion::Es2016),
        "es2017" => Some(EsVersion::Es2017),
        "es2018" => Some(EsVersion::Es2018),
        "es2019" => Some(EsVersion::Es2019),
        "es2020" => Some(EsVersion::Es2020),
        "es2021" => Some(EsVersion::Es2021),
        "es2022" => Some(EsVersion::Es2022),
        "esnext" => Some(EsVersion::EsNext),
        _ => None,
    }
}

/// The name of an edition.
pub(crate) fn target_name(target: EsVersion) -> &'static str {
    match target {
        EsVersion::Es2015 => "es2015",
        EsVersion::Es2016 => "es2016",
        EsVersion::Es2017 => "es2017",
        EsVersion::Es2018 => "es2018",
        EsVersion::Es2019 => "es2019",
        EsVersion::Es2020 => "es2020",
        EsVersion::Es2021 => "es2021",
        EsVersion::Es2022 => "es2022",
        _ => "esnext",
    }
}

/// A step of so many blanks, where so many may be asked for.
pub(crate) fn blanks_of(count: u64) -> Option<Indent> {
    match u8::try_from(count) {
        Ok(count) if count <= Options::WIDEST => Some(Indent::Blanks(count)),
        _ => None,
    }
}

/// The step of indentation of a name.
pub(crate) fn indent_of(name: &str) -> Option<Indent> {
    if name == "tab" {
        return Some(Indent::Tabs(1));
    }
    match name.parse::<u64>() {
        Ok(count) => blanks_of(count),
        Err(_) => None,
    }
}

/// The line end of a name.
pub(crate) fn line_end_of(name: &str) -> Option<LineEnd> {
    match name {
        "lf" => Some(LineEnd::Lf),
        "crlf" => Some(LineEnd::CrLf),
        _ => None,
    }
}

/// The goal of a name.
pub(crate) fn goal_of(name: &str) -> Option<Goal> {
    match name {
        "script" => Some(Goal::Script),
        "module" => Some(Goal::Module),
        _ => None,
    }
}

/// A nesting that may be asked for.
pub(crate) fn nesting_of(count: u64) -> Option<u32> {
    match u32::try_from(count) {
        Ok(count) if count > 0 && count <= Options::DEEPEST => Some(count),
        _ => None,
    }
}
