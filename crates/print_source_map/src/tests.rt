//! Texts of mappings that other makers of source maps write.
use crate::fault::MapError;
use crate::mapping::Mapping;
use crate::segments::mappings;
use base_token::LineCol;
use std::test::Fail;

/// A line and a column.
fn at(line: u32, col: u32) -> LineCol {
    LineCol { line, col }
}

/// A mapping of a place that was written.
fn mapping(written: LineCol, source: LineCol) -> Mapping {
    Mapping { written, source }
}

#[test]
fn known_texts(rt: HostRuntime) -> Result<(), Fail> {
    let alloc = rt.alloc();
    let line = [
        mapping(at(0, 0), at(0, 0)),
        mapping(at(0, 4), at(0, 5)),
        mapping(at(0, 6), at(0, 9)),
    ];
    assert_eq!(rt; mappings(alloc, &line)?.as_str(), "AAAA,IAAK,EAAI");
    let back = [mapping(at(0, 1), at(1, 1)), mapping(at(2, 0), at(0, 0))];
    assert_eq!(rt; mappings(alloc, &back)?.as_str(), "CACC;;AADD");
    let far = [
        mapping(at(0, 0), at(0, 2_147_483_647)),
        mapping(at(1, 123), at(0, 0)),
    ];
    assert_eq!(rt; mappings(alloc, &far)?.as_str(), "AAA+/////D;2HAA//////D");
    Ok(())
}

#[test]
fn refusals(rt: HostRuntime) -> Result<(), Fail> {
    let alloc = rt.alloc();
    let mixed = [mapping(at(0, 1), at(0, 0)), mapping(at(0, 0), at(0, 0))];
    assert_eq!(rt; mappings(alloc, &mixed).err(), Some(MapError::Order));
    let far = [mapping(at(0, 0), at(2_147_483_648, 0))];
    assert_eq!(rt; mappings(alloc, &far).err(), Some(MapError::TooFar));
    assert_eq!(rt; mappings(alloc, &[])?.as_str(), "");
    Ok(())
}
