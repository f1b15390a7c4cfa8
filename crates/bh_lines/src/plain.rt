//! Plain lines: one object of a few members, taken straight from the bytes of the line.
//!
//! Plain are texts, whole numbers of at most nineteen digits, truth values and null, with no white space between them but one
//! space at a time. A text with escapes is plain where the object has room for it and none is half of a pair. A line of any
//! other form is not refused here: the library reads what is left of it from its first member that is not plain.

ghost use Rattle.std.specs.Prelude.{◌≡◌, ℕ, ◌+◌, ◌-◌, ◌<◌, ◌≤◌, [], ◌∷◌, ◌++◌, length, drop, true, Some, IfSome, MatchOption};
ghost use Rattle.json.specs.Lex.{between, lex, tokens};
ghost use Rattle.serde_json.specs.Read.{read};
ghost use Rattle.bh_lines.specs.Flat.{is_flat, flat_data};
ghost use Rattle.bh_lines.specs.declared.plain.PlainRead.TheVariants as read_as;
ghost use Rattle.bh_lines.specs.Plain.{AreSignsThen, IsFollowing, IsInsideThen, IsMemberThen, IsNamed, IsNumberThen, IsReadTo, IsScalarThen, IsSignThen, IsTaken};

use crate::escaped::escaped_text;
use crate::flat::{FlatMember, MOST_MEMBERS, Scalar};
use crate::stops::plain_end;
use arrayvec::ArrayVec;
use core::dec2flt::read_digits;

/// A number of so many digits is one of 64 bits; of a longer one it is not looked whether it is.
const SURE_DIGITS: usize = 19;

/// What follows a member of an object.
#[derive(Clone, Copy)]
enum Follows {
    /// Another member: the place behind the quote that opens its name.
    Member(usize),
    /// The bracket that closes the object: the place behind it.
    End(usize),
}

/// How much of a line was read as plain.
#[derive(Clone, Copy, Debug, PartialEq, Eq)]
pub(crate) enum PlainRead {
    /// All of it.
    Whole,
    /// The members in front of the one whose name begins at this place, behind its quote.
    UpTo(usize),
    /// Nothing that is of use.
    Nothing,
}

/// Reads the members of the object that a line is into `members`, which has none yet, as far as the line is plain, and says
/// how far that is. Texts with escapes are put into the room.
///
/// Most lines have no escape, and are read by a loop that looks for none.
pub(crate) fn read_plain<'a>(
    line: &'a str,
    members: &mut ArrayVec<FlatMember<'a>, MOST_MEMBERS>,
    room: &mut &'a mut [u8],
) -> PlainRead
    requires { members.old.items ≡ [] }
    ensures found { result ≡ PlainRead.Whole → is_flat (tokens line.now) ≡ true }
    ensures value { result ≡ PlainRead.Whole → read line.now ≡ Some (flat_data members.new.items) }
    ensures front { (start : ℕ) → result ≡ read_as.UpTo start → (0 < start) × IsReadTo line.now members.new.items (start - 1) }
{
    if !is_at(line, 0, b'{') {
        return PlainRead::Nothing;
    }
    let Some(start) = behind_sign(line, 1, b'"') else {
        return PlainRead::Nothing;
    };
    match read_members::<false>(line, start, members, room) {
        PlainRead::UpTo(start) if !room.is_empty() => {
            read_members::<true>(line, start, members, room)
        }
        read => read,
    }
}

/// Reads the members behind those that were read, from the one on whose name begins at the place.
#[inline(never)]
fn read_members<'a, const ESCAPES: bool>(
    line: &'a str,
    start: usize,
    members: &mut ArrayVec<FlatMember<'a>, MOST_MEMBERS>,
    room: &mut &'a mut [u8],
) -> PlainRead
    requires opens { drop 0 line.now ≡ 123 ∷ drop 1 line.now }
    requires named { IsNamed line.now members.old.items start }
    ensures found { result ≡ PlainRead.Whole → is_flat (tokens line.now) ≡ true }
    ensures value { result ≡ PlainRead.Whole → read line.now ≡ Some (flat_data members.new.items) }
    ensures front { (start : ℕ) → result ≡ read_as.UpTo start → IsNamed line.now members.new.items start }
{
    let mut start = start;
    while let Some(follows) = take_member::<ESCAPES>(line, start, members, room) {
        match follows {
            Follows::Member(name) => start = name,
            Follows::End(end) if end == line.len() => return PlainRead::Whole,
            Follows::End(_) => return PlainRead::Nothing,
        }
    }
    PlainRead::UpTo(start)
}

/// Takes the member whose name begins at the place behind the others, and says what follows it.
///
/// Each kind of value is put by itself, so that none has to be told from the others once more.
#[inline(always)]
fn take_member<'a, const ESCAPES: bool>(
    line: &'a str,
    start: usize,
    members: &mut ArrayVec<FlatMember<'a>, MOST_MEMBERS>,
    room: &mut &'a mut [u8],
) -> Option<Follows>
    requires { IsNamed line.now members.old.items start }
    ensures { MatchOption result (members.new ≡ members.old) (IsTaken line.now members.old.items members.new.items) }
{
    let (name, behind_name) = plain_text::<ESCAPES>(line, start, room)?;
    let place = behind_sign(line, behind_name, b':')?;
    if let Some(start) = behind_sign(line, place, b'"') {
        let (text, behind) = plain_text::<ESCAPES>(line, start, room)?;
        let value = Scalar::Text(text);
        return push_member(line, FlatMember { name, value }, behind, members);
    }
    let place = past_space(line, place);
    if let Some((number, behind)) = plain_number(line, place) {
        let value = Scalar::Number(number);
        return push_member(line, FlatMember { name, value }, behind, members);
    }
    let (value, behind) = plain_word(line, place)?;
    push_member(line, FlatMember { name, value }, behind, members)
}

/// Puts the member, of which this is the place behind its value, behind the others, and says what follows it. It stays out
/// where something else follows, and where there is no room.
#[inline(always)]
fn push_member<'a>(
    line: &str,
    member: FlatMember<'a>,
    behind: usize,
    members: &mut ArrayVec<FlatMember<'a>, MOST_MEMBERS>,
) -> Option<Follows>
    requires { IsMemberThen line.now members.old.items member behind }
    ensures { MatchOption result (members.new ≡ members.old) (IsTaken line.now members.old.items members.new.items) }
{
    let follows = follows_at(line, behind)?;
    members.try_push(member).ok()?;
    Some(follows)
}

/// What follows a member, from the place on that is behind its value.
#[inline(always)]
fn follows_at(line: &str, place: usize) -> Option<Follows>
    ensures { IfSome result (IsFollowing line.now place) }
{
    if let Some(name) = behind_signs(line, place, b',', b'"') {
        return Some(Follows::Member(name));
    }
    let end = behind_sign(line, place, b'}')?;
    Some(Follows::End(end))
}

/// The truth value or null at the place, and the place behind it.
fn plain_word(line: &str, place: usize) -> Option<(Scalar<'_>, usize)>
    ensures { IfSome result (λ found. IsScalarThen (drop place line.now) found.0 (drop found.1 line.now)) }
{
    if is_word_at(line, place, "true") {
        return Some((Scalar::Truth(true), place + 4));
    }
    if is_word_at(line, place, "false") {
        return Some((Scalar::Truth(false), place + 5));
    }
    if !is_word_at(line, place, "null") {
        return None;
    }
    Some((Scalar::Null, place + 4))
}

/// Whether the word stands at the place.
fn is_word_at(line: &str, place: usize, word: &str) -> bool
    ensures stands { result ≡ true → drop place line.now ≡ word.now ++ drop (place + length word.now) line.now }
    ensures within { result ≡ true → place + length word.now ≤ length line.now }
{
    let (bytes, word) = (line.as_bytes(), word.as_bytes());
    place <= bytes.len() && bytes[place..].starts_with(word)
}

/// The number at the place, and the place behind it.
#[inline(always)]
fn plain_number(line: &str, place: usize) -> Option<(u64, usize)>
    ensures { IfSome result (λ found. IsNumberThen (drop place line.now) found.0 (drop found.1 line.now)) }
{
    let bytes = line.as_bytes();
    if place >= bytes.len() {
        return None;
    }
    // No other digit stands behind a zero in front.
    if bytes[place] == b'0' {
        return Some((0, place + 1));
    }
    let (end, number) = read_digits(bytes, place, 0);
    if end == place || end - place > SURE_DIGITS {
        return None;
    }
    Some((number, end))
}

/// The text whose inside begins at the place, and the place behind its quote; one with escapes only where these are looked for.
#[inline(always)]
fn plain_text<'a, const ESCAPES: bool>(
    line: &'a str,
    start: usize,
    room: &mut &'a mut [u8],
) -> Option<(&'a str, usize)>
    requires { (place : ℕ) × IsSignThen line.now place 34 start }
    ensures { IfSome result (λ found. IsInsideThen (drop start line.now) found.0.now (drop found.1 line.now)) }
{
    let end = plain_end(line.as_bytes(), start);
    if is_at(line, end, b'"') {
        return Some((&line[start..end], end + 1));
    }
    if ESCAPES {
        return escaped_text(line, start, room);
    }
    None
}

/// The place behind the two signs, each of which stands where it is looked for or behind one space.
///
/// Most lines have no space there, so both are looked for together first.
#[inline(always)]
fn behind_signs(line: &str, place: usize, first: u8, second: u8) -> Option<usize>
    ensures { IfSome result (AreSignsThen line.now place first second) }
{
    if are_at(line, place, first, second) {
        return Some(place + 2);
    }
    let behind = behind_sign(line, place, first)?;
    behind_sign(line, behind, second)
}

/// The place behind the sign, where it stands at this place or behind one space: a second space in a row is not plain.
///
/// The sign is looked for before the space, so that most signs are found by one look, and what is read next need not wait
/// until it is known whether a space was there.
#[inline(always)]
fn behind_sign(line: &str, place: usize, sign: u8) -> Option<usize>
    ensures { IfSome result (IsSignThen line.now place sign) }
{
    if is_at(line, place, sign) {
        return Some(place + 1);
    }
    if is_at(line, place, b' ') && is_at(line, place + 1, sign) {
        return Some(place + 2);
    }
    None
}

/// The place behind the space that stands at this one, if one does: a second space in a row is not plain.
#[inline(always)]
fn past_space(line: &str, place: usize) -> usize
    ensures { lex between (drop result line.now) ≡ lex between (drop place line.now) }
{
    if is_at(line, place, b' ') {
        place + 1
    } else {
        place
    }
}

/// Whether these bytes stand at the place, one behind the other.
#[inline(always)]
fn are_at(line: &str, place: usize, first: u8, second: u8) -> bool
    ensures stands { result ≡ true → drop place line.now ≡ first ∷ second ∷ drop (place + 2) line.now }
    ensures within { result ≡ true → place + 1 < length line.now }
{
    let bytes = line.as_bytes();
    let last = bytes.len().saturating_sub(1);
    place < last && bytes[place] == first && bytes[place + 1] == second
}

/// Whether this byte stands at the place.
#[inline(always)]
pub(crate) fn is_at(line: &str, place: usize, byte: u8) -> bool
    ensures stands { result ≡ true → drop place line.now ≡ byte ∷ drop (place + 1) line.now }
    ensures within { result ≡ true → place < length line.now }
{
    let bytes = line.as_bytes();
    place < bytes.len() && bytes[place] == byte
}
