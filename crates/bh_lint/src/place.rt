//! Places in a text.

/// What may stand in front of a text to say that it is UTF-8. No editor shows it, so it takes no column.
const BYTE_ORDER_MARK: [u8; 3] = [0xEF, 0xBB, 0xBF];

/// A place in a text: its line and its column there, both from 1. A column counts characters.
#[derive(Clone, Copy)]
pub struct Place {
    /// The line.
    pub line: u64,
    /// The column.
    pub column: u64,
}

/// A walk along a text.
#[derive(Clone, Copy)]
pub(crate) struct Cursor<'a> {
    /// The text.
    bytes: &'a [u8],
    /// How far it has come.
    offset: usize,
    /// The place there.
    place: Place,
}

impl Place {
    /// The first of a text.
    pub const FIRST: Place = Place { line: 1, column: 1 };

    /// The place behind the byte.
    fn behind(self, byte: u8) -> Place {
        if byte == b'\n' {
            Place {
                line: self.line.saturating_add(1),
                column: 1,
            }
        } else if byte & 0xC0 == 0x80 {
            self
        } else {
            Place {
                line: self.line,
                column: self.column.saturating_add(1),
            }
        }
    }
}

impl<'a> Cursor<'a> {
    /// One before the text, and behind a byte order mark in front of it.
    pub(crate) fn new(bytes: &'a [u8]) -> Cursor<'a> {
        let offset = if bytes.starts_with(&BYTE_ORDER_MARK) {
            BYTE_ORDER_MARK.len()
        } else {
            0
        };
        Cursor {
            bytes,
            offset,
            place: Place::FIRST,
        }
    }

    /// The place at the offset, if that is not behind the walk; it goes on from there.
    pub(crate) fn place_at(&mut self, offset: usize) -> Place {
        if let Some(passed) = self.bytes.get(self.offset..offset) {
            for byte in passed {
                self.place = self.place.behind(*byte);
            }
            self.offset = offset;
        }
        self.place
    }
}
