//! Objects of a few members that hold no others, read from a line with no tree built of it.
//!
//! Nearly every line is one, and its members borrow from the line; any other line is read as a tree.

ghost use Rattle.std.specs.Prelude.{◌≡◌, ◌<◌, ◌==◌, ◌&&◌, Bool, false, true, List, [], length, slice_index, Some, is_some, option_map, IfOk, IfSome, MatchOption, OnErr, OnSome};
ghost use Rattle.json.specs.Lex.{tokens};
ghost use Rattle.json.specs.Scratch.{room};
ghost use Rattle.json.specs.Token.{Token as JsonToken};
ghost use Rattle.serde_json.specs.Data.{unsigned};
ghost use Rattle.serde_json.specs.Find.{get};
ghost use Rattle.serde_json.specs.Read.{read, number_of, number_from};
ghost use Rattle.bh_lines.specs.Flat.{are_members, is_flat, is_over, is_scalar_then, is_whole, scalar_data, flat_data, IsBegun, ReadsScalar, ReadsMembers};
ghost use Rattle.bh_lines.specs.Plain.{IsFrontOf};

use crate::plain::{PlainRead, read_plain};
use arrayvec::ArrayVec;
use fast_float::Numeral;
use json::{Reader, Scratch, Token};
use std::alloc::AllocError;

/// More than a step has; `is_flat` has the same number.
pub(crate) const MOST_MEMBERS: usize = 8;

/// A value that holds no others. A number is whole and of 64 bits.
#[derive(Clone, Copy, Debug, Default)]
pub enum Scalar<'a> {
    #[default]
    Null,
    Truth(bool),
    Number(u64),
    Text(&'a str),
}

/// A member of an object: its name, and its value.
#[derive(Clone, Copy, Debug, Default)]
pub struct FlatMember<'a> {
    pub name: &'a str,
    pub value: Scalar<'a>,
}

/// The members of an object, in the order of the line. Where a name comes twice, the later member counts.
#[derive(Drop)]
pub struct FlatObject<'a> {
    pub members: ArrayVec<FlatMember<'a>, MOST_MEMBERS>,
    /// The place in the line behind these members, where `read_plain` read no further; else 0.
    pub rest: usize,
    /// Where `read_plain` puts the texts that have escapes: what is left of it.
    room: &'a mut [u8],
}

impl<'a> FlatObject<'a> {
    /// An object without members, which has no room for a text with escapes.
    pub fn new() -> FlatObject<'a>
        ensures { result.members.items ≡ [] }
    {
        FlatObject::with_room(&mut [])
    }

    /// An object without members, where `read_plain` puts texts with escapes into the room, one behind the other. Once it is
    /// used up, such a text is not plain.
    pub fn with_room(room: &'a mut [u8]) -> FlatObject<'a>
        ensures { result.members.items ≡ [] }
    {
        // Members that are equal and whole are made in a third of the time that the vector takes for its own blanks.
        let member = FlatMember {
            name: "",
            value: Scalar::Number(0),
        };
        let mut members = ArrayVec::from_array_in((), [member; MOST_MEMBERS]);
        members.clear();
        FlatObject {
            members,
            rest: 0,
            room,
        }
    }

    /// Becomes the object that a line is, and says whether it is one of at most eight members, each a scalar; where it
    /// is not, this says no more of the line, and the members mean nothing.
    ///
    /// It fails only for want of memory, since the scratch grows to the length of the line; the object stays as it was then.
    pub fn read(&mut self, line: &'a str, scratch: &'a mut Scratch) -> Result<bool, AllocError>
        ensures found { IfOk result (λ found. found ≡ is_flat (tokens line.now)) }
        ensures value { IfOk result (λ found. found ≡ true → read line.now ≡ Some (flat_data self.new.members.items)) }
        ensures err { OnErr result (self.new.members.items ≡ self.old.members.items) }
    {
        scratch.reserve(line.len())?;
        if self.read_plain(line) {
            return Ok(true);
        }
        self.read_on(line, scratch)
    }

    /// Becomes the object that a plain line is, and says whether the line is one; where it is not, this says no more of it
    /// but what its front is, for `read_rest`. It takes no memory, and one object serves for any number of lines.
    ///
    /// Plain is an object of at most eight members: texts, whole numbers of at most nineteen digits, truth values and null,
    /// with no white space between them but one space at a time. A text with escapes is one for which there is room, and of
    /// which no character is a pair of them.
    pub fn read_plain(&mut self, line: &'a str) -> bool
        ensures found { result ≡ true → is_flat (tokens line.now) ≡ true }
        ensures value { result ≡ true → read line.now ≡ Some (flat_data self.new.members.items) }
        ensures front { IsFrontOf line.now self.new }
    {
        self.members.clear();
        self.rest = 0;
        match read_plain(line, &mut self.members, &mut self.room) {
            PlainRead::Whole => true,
            PlainRead::UpTo(name) => {
                self.rest = name - 1;
                false
            }
            PlainRead::Nothing => false,
        }
    }

    /// As `read`, of a line whose front was read by `read_plain`, and is kept: only what is behind it is read here. It fails
    /// only for want of memory, where the scratch has no room for the line; the object has the members of the front then.
    pub fn read_rest(
        &mut self,
        front: &FlatObject<'a>,
        line: &'a str,
        scratch: &'a mut Scratch,
    ) -> Result<bool, AllocError>
        requires { IsFrontOf line.now front.now }
        ensures found { IfOk result (λ found. found ≡ is_flat (tokens line.now)) }
        ensures value { IfOk result (λ found. found ≡ true → read line.now ≡ Some (flat_data self.new.members.items)) }
        ensures err { OnErr result (self.new.members.items ≡ front.now.members.items) }
        ensures full { OnErr result (room scratch.old < length line.now) }
    {
        self.members.clear();
        let Ok(()) = self.members.try_extend_from_slice(front.members.as_slice()) else {
            unreachable!()
        };
        self.rest = front.rest;
        self.read_on(line, scratch)
    }

    /// Reads what is left of a line behind its front, which the object is.
    fn read_on(&mut self, line: &'a str, scratch: &'a mut Scratch) -> Result<bool, AllocError>
        requires { IsFrontOf line.now self.old }
        ensures found { IfOk result (λ found. found ≡ is_flat (tokens line.now)) }
        ensures value { IfOk result (λ found. found ≡ true → read line.now ≡ Some (flat_data self.new.members.items)) }
        ensures err { OnErr result (self.new.members.items ≡ self.old.members.items) }
        ensures full { OnErr result (room scratch.old < length line.now) }
    {
        if self.rest == 0 {
            return self.read_tokens(line, scratch);
        }
        let mut reader = Reader::new(&line[self.rest..], scratch)?;
        Ok(ends_object(&mut reader, &mut self.members))
    }

    /// As `read`, without a look whether the line is plain.
    pub fn read_tokens(
        &mut self,
        line: &'a str,
        scratch: &'a mut Scratch,
    ) -> Result<bool, AllocError>
        ensures found { IfOk result (λ found. found ≡ is_flat (tokens line.now)) }
        ensures value { IfOk result (λ found. found ≡ true → read line.now ≡ Some (flat_data self.new.members.items)) }
        ensures err { OnErr result (self.new.members.items ≡ self.old.members.items) }
        ensures full { OnErr result (room scratch.old < length line.now) }
    {
        let mut reader = Reader::new(line, scratch)?;
        let Some(Token::BeginObject) = reader.next() else {
            return Ok(false);
        };
        self.members.clear();
        Ok(ends_object(&mut reader, &mut self.members))
    }

    /// The value of the member, if there is one.
    #[inline(always)]
    pub fn get(&self, name: &str) -> Option<Scalar<'a>>
        ensures { option_map scalar_data result ≡ get name.now (flat_data self.now.members.items) }
    {
        for member in self.members.as_slice().iter().rev() {
            if name == member.name {
                return Some(member.value);
            }
        }
        None
    }
}

/// Reads what is left of an object of which `members` have been read, and says whether it is one of at most eight members, each
/// a scalar, and nothing follows.
fn ends_object<'a>(
    reader: &mut Reader<'a>,
    members: &mut ArrayVec<FlatMember<'a>, MOST_MEMBERS>,
) -> bool
    ensures found { (first : List JsonToken) → IsBegun first members.old.items reader.old → result ≡ are_members 8 first }
    ensures value { (first : List JsonToken) → IsBegun first members.old.items reader.old → result ≡ true → ReadsMembers members.new.items first [] }
{
    let Some(()) = next_members(reader, members) else {
        return false;
    };
    reader.next().is_none()
}

/// Reads the members up to the bracket that closes their object behind those that have been read, or `None` where something
/// else comes.
fn next_members<'a>(
    reader: &mut Reader<'a>,
    members: &mut ArrayVec<FlatMember<'a>, MOST_MEMBERS>,
) -> Option<()>
    ensures found { (first : List JsonToken) → IsBegun first members.old.items reader.old →
        MatchOption result (are_members 8 first ≡ false) (λ _. are_members 8 first ≡ is_over reader.new) }
    ensures value { OnSome result ((first : List JsonToken) → IsBegun first members.old.items reader.old → ReadsMembers members.new.items first reader.new) }
{
    while let Some(name) = reader.next_key().ok()? {
        let value = next_scalar(reader)?;
        members.try_push(FlatMember { name, value }).ok()?;
    }
    Some(())
}

/// The scalar that is next.
fn next_scalar<'a>(reader: &mut Reader<'a>) -> Option<Scalar<'a>>
    ensures found { (rest : List JsonToken → Bool) → is_scalar_then rest reader.old ≡ (is_some result && rest reader.new) }
    ensures value { IfSome result (λ scalar. ReadsScalar scalar reader.old reader.new) }
    ensures shorter { OnSome result (length reader.new < length reader.old) }
{
    match reader.next()? {
        Token::String(text) => Some(Scalar::Text(text)),
        Token::Number(text) => Some(Scalar::Number(whole_number(text)?)),
        Token::Bool(truth) => Some(Scalar::Truth(truth)),
        Token::Null => Some(Scalar::Null),
        _ => None,
    }
}

/// The number that a number's text says, where it is whole and of 64 bits.
fn whole_number(text: &str) -> Option<u64>
    ensures found { is_some result ≡ is_whole (number_of text.now) }
    ensures value { IfSome result (λ n. number_of text.now ≡ Some (unsigned n)) }
{
    let bytes = text.as_bytes();
    if has_minus(bytes) {
        return None;
    }
    whole_numeral(&Numeral::scan(bytes))
}

/// Whether the text of a number begins with a minus.
fn has_minus(bytes: &[u8]) -> bool
    ensures { result ≡ (slice_index bytes.now 0 == 45) }
{
    bytes.first() == Some(&b'-')
}

/// The number that a numeral without a sign says, where it is whole and of 64 bits.
fn whole_numeral(numeral: &Numeral<'_>) -> Option<u64>
    ensures found { is_some result ≡ is_whole (number_from false numeral.now) }
    ensures value { IfSome result (λ n. number_from false numeral.now ≡ Some (unsigned n)) }
{
    numeral.to_u64()
}
