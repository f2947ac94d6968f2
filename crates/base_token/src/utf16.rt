//! The code units of UTF-16.
ghost use Rattle.std.specs.Prelude.{◌≡◌, ◌++◌, ◌<◌, OnOk};
ghost use Rattle.std.specs.Char.Escape.{encode_utf16};
ghost use Rattle.std.specs.Str.{chars};
ghost use Rattle.base_token.specs.Utf16.{utf16};

use std::alloc::AllocError;

/// Adds the units of a code point, which may be a surrogate (ECMA-262, 11.1.1).
///
/// # Errors
///
/// Want of memory.
pub fn push_code(units: &mut Vec<u16>, code: u32) -> Result<(), AllocError>
    requires { code < 0x110000 }
    ensures { OnOk result (units.new.items ≡ units.old.items ++ encode_utf16 code) }
{
    if code < 0x1_0000 {
        units.push(code as u16)?;
    } else {
        let over = code - 0x1_0000;
        units.push((0xD800 + over / 0x400) as u16)?;
        units.push((0xDC00 + over % 0x400) as u16)?;
    }
    Ok(())
}

/// Adds the units of a text.
///
/// # Errors
///
/// Want of memory.
pub fn push_text(units: &mut Vec<u16>, text: &str) -> Result<(), AllocError>
    ensures { OnOk result (units.new.items ≡ units.old.items ++ utf16 (chars text.now)) }
{
    for c in text.chars() {
        push_code(units, c as u32)?;
    }
    Ok(())
}
