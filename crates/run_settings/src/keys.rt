//! Where a key stands in a text of JSON.

/// Where reading a text of JSON stands.
#[derive(Clone, Copy)]
struct At {
    /// In how many objects and lists.
    depth: u32,
    /// Where the text in quotes began in which it stands.
    text_from: Option<usize>,
    /// The byte before quotes the next one.
    is_quoted: bool,
    /// A text in quotes that comes would be a key of the outermost object.
    is_key_next: bool,
}

impl At {
    /// Steps past a byte in quotes, and answers where its text began where the byte ends a key.
    fn step_quoted(&mut self, byte: u8, from: usize) -> Option<usize> {
        if self.is_quoted {
            self.is_quoted = false;
            return None;
        }
        match byte {
            b'\\' => self.is_quoted = true,
            b'"' => {
                self.text_from = None;
                if self.is_key_next {
                    return Some(from);
                }
            }
            _ => {}
        }
        None
    }

    /// Steps past a byte that stands in no quotes.
    fn step_plain(&mut self, byte: u8, behind: usize) {
        match byte {
            b'"' => self.text_from = Some(behind),
            b'{' | b'[' => {
                self.depth = self.depth.saturating_add(1);
                self.is_key_next = self.depth == 1;
            }
            b'}' | b']' => {
                self.depth = self.depth.saturating_sub(1);
                self.is_key_next = false;
            }
            b':' => self.is_key_next = false,
            b',' => self.is_key_next = self.depth == 1,
            _ => {}
        }
    }

    /// Steps past a byte, and answers where its text began where the byte ends a key.
    fn step(&mut self, byte: u8, behind: usize) -> Option<usize> {
        match self.text_from {
            Some(from) => self.step_quoted(byte, from),
            None => {
                self.step_plain(byte, behind);
                None
            }
        }
    }
}

/// Where a key of the outermost object stands, with its quotes; the start of the text where it stands nowhere as it is spelled.
pub(crate) fn key_at(text: &str, key: &str) -> usize {
    let mut at = At {
        depth: 0,
        text_from: None,
        is_quoted: false,
        is_key_next: false,
    };
    let bytes = text.as_bytes();
    for (end, byte) in bytes.iter().enumerate() {
        if let Some(from) = at.step(*byte, end.saturating_add(1))
            && bytes.get(from..end) == Some(key.as_bytes())
        {
            return from.saturating_sub(1);
        }
    }
    0
}

/// The line and the column of a place in a text, from 1; a column is a character.
pub(crate) fn place_in(text: &str, at: usize) -> (u64, u64) {
    let mut line = 1u64;
    let mut column = 1u64;
    for c in text.get(..at).unwrap_or("").chars() {
        if c == '\n' {
            line = line.saturating_add(1);
            column = 1;
        } else {
            column = column.saturating_add(1);
        }
    }
    (line, column)
}
