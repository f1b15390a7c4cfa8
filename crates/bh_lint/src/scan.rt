//! Where names stand in a text that is TOML. The tree of the library has no places: so the text is read once more, by
//! the library's own tokens.

use crate::path::{Path, push_key};
use crate::place::{Cursor, Place};
use indexmap::IndexMap;
use std::alloc::{AllocError, Global};
use toml_parser::text::{first, skip_blank, skip_ws};
use toml_parser::{Key, ParseError, dotted_key, quoted, unquoted};

/// How deep values nest at most.
const DEEPEST: u8 = 80;

/// The paths that are sought, each with the place where it stands first, once that is found.
pub(crate) type Sought = IndexMap<Path, Option<Place>>;

/// Why the reading stopped.
#[derive(Drop)]
enum Stop {
    /// Memory was refused.
    Memory,
    /// The text is no TOML.
    Syntax,
}

impl From<ParseError> for Stop {
    fn from(error: ParseError) -> Stop {
        match error {
            ParseError::OutOfMemory => Stop::Memory,
            _ => Stop::Syntax,
        }
    }
}

impl From<AllocError> for Stop {
    fn from(_error: AllocError) -> Stop {
        Stop::Memory
    }
}

/// A reading of a text.
#[derive(Drop)]
struct Scan<'a> {
    /// The allocator.
    alloc: Global,
    /// The text.
    text: &'a str,
    /// The walk along it.
    cursor: Cursor<'a>,
    /// The path of the key or the table that is read.
    path: Path,
    /// What is sought.
    sought: &'a mut Sought,
}

/// Finds the places of the paths in the text.
pub(crate) fn find_places(
    alloc: Global,
    text: &str,
    sought: &mut Sought,
) -> Result<(), AllocError> {
    let mut scan = Scan {
        alloc,
        text,
        cursor: Cursor::new(text.as_bytes()),
        path: Vec::new(alloc),
        sought,
    };
    match scan.document() {
        Err(Stop::Memory) => Err(AllocError),
        _ => Ok(()),
    }
}

impl<'a> Scan<'a> {
    /// Reads the whole text.
    fn document(&mut self) -> Result<(), Stop> {
        let mut rest = self.text.strip_prefix('\u{FEFF}').unwrap_or(self.text);
        let mut header = 0;
        for _ in 0..=self.text.len() {
            rest = skip_blank(rest, true);
            if rest.is_empty() {
                break;
            }
            if let Some(after) = rest.strip_prefix('[') {
                rest = self.header(after)?;
                header = self.path.len();
            } else {
                rest = self.pair(rest, DEEPEST)?;
                self.path.truncate(header);
            }
        }
        Ok(())
    }

    /// Reads a header behind its first bracket.
    fn header(&mut self, s: &'a str) -> Result<&'a str, Stop> {
        self.path.clear();
        let rest = self.key(skip_ws(s.strip_prefix('[').unwrap_or(s)))?;
        let rest = rest.strip_prefix(']').unwrap_or(rest);
        Ok(rest.strip_prefix(']').unwrap_or(rest))
    }

    /// Reads a key, and adds it to the path.
    fn key(&mut self, s: &'a str) -> Result<&'a str, Stop> {
        let (key, rest) = dotted_key(self.alloc, s)?;
        let offset = self.text.len().saturating_sub(s.len());
        for part in &key.path {
            self.note(part.as_str(), offset)?;
        }
        self.note(key.last.as_str(), offset)?;
        Ok(rest)
    }

    /// Adds a part of a key to the path, which stands at the offset.
    fn note(&mut self, part: &str, offset: usize) -> Result<(), AllocError> {
        push_key(&mut self.path, part)?;
        if let Some(place) = self.sought.get_mut(&self.path)
            && place.is_none()
        {
            *place = Some(self.cursor.place_at(offset));
        }
        Ok(())
    }

    /// Reads a key and its value.
    #[cycle(value)]
    fn pair(&mut self, s: &'a str, depth: u8) -> Result<&'a str, Stop> {
        let rest = self.key(s)?;
        let rest = rest.strip_prefix('=').unwrap_or(rest);
        self.value(skip_ws(rest), depth)
    }

    /// Reads a value.
    #[cycle(value)]
    fn value(&mut self, s: &'a str, depth: u8) -> Result<&'a str, Stop> {
        if depth == 0 {
            return Err(Stop::Syntax);
        }
        match first(s) {
            b'"' | b'\'' => Ok(quoted(self.alloc, s)?.1),
            b'[' => self.items(s.strip_prefix('[').unwrap_or(s), depth - 1),
            b'{' => self.members(s.strip_prefix('{').unwrap_or(s), depth - 1),
            _ => Ok(unquoted(self.alloc, s)?.1),
        }
    }

    /// Reads the items of a list behind its bracket.
    #[cycle(value)]
    fn items(&mut self, s: &'a str, depth: u8) -> Result<&'a str, Stop> {
        let mut rest = s;
        for _ in 0..=s.len() {
            rest = skip_blank(rest, true);
            if let Some(after) = rest.strip_prefix(']') {
                return Ok(after);
            }
            rest = skip_blank(self.value(rest, depth)?, true);
            rest = rest.strip_prefix(',').unwrap_or(rest);
        }
        Err(Stop::Syntax)
    }

    /// Reads the members of an inline table behind its brace.
    #[cycle(value)]
    fn members(&mut self, s: &'a str, depth: u8) -> Result<&'a str, Stop> {
        let outer = self.path.len();
        let mut rest = s;
        for _ in 0..=s.len() {
            rest = skip_blank(rest, true);
            if let Some(after) = rest.strip_prefix('}') {
                return Ok(after);
            }
            rest = skip_blank(self.pair(rest, depth)?, true);
            self.path.truncate(outer);
            rest = rest.strip_prefix(',').unwrap_or(rest);
        }
        Err(Stop::Syntax)
    }
}
