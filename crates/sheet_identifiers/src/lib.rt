// Names as identifiers that C and Rust both take. What is no identifier, or stands there already, goes by its number.
#![tactic(auto)]

ghost use Rattle.std.specs.Prelude.{◌≡◌};
ghost use Rattle.std.specs.Char.{is_ascii_digit};
ghost use Rattle.std.specs.List.{list_all};
ghost use Rattle.sheet_names.specs.Names.{type_name, member_name};
ghost use Rattle.sheet_output.specs.Written.{Writes, lent};
ghost use Rattle.sheet_identifiers.specs.Identifiers.{is_letter, is_letter_or_digit, is_identifier, stem, is_listed, is_kept, is_numbered, is_made, is_same};
ghost use Rattle.sheet_identifiers.specs.Identifiers.{has_identifier, identifier_text, StaysApart, name_text, type_text, member_text, TypeStandsAlone, MemberStandsAlone};

use sheet_names::{Member, Type};
use sheet_output::Writer;
use std::io::Write;

// Kept: the letters of C and Rust; that a word of WGSL starts with the same ones is another language's rule, and says nothing of these.
fn is_letter(c: u8) -> bool
    ensures { result ≡ is_letter c }
{
    c.is_ascii_alphabetic() | (c == b'_')
}

fn is_letter_or_digit(c: u8) -> bool
    ensures { result ≡ is_letter_or_digit c }
{
    is_letter(c) | c.is_ascii_digit()
}

// A letter first, then letters and digits.
fn is_identifier(name: &[u8]) -> bool
    ensures { result ≡ is_identifier name.now }
{
    name.first().is_some_and(|c| is_letter(*c)) && name.iter().all(|c| is_letter_or_digit(*c))
}

// A name without the underscores at its end.
fn stem(name: &[u8]) -> &[u8]
    ensures { result.now ≡ stem name.now }
{
    match name.iter().rposition(|c| *c != b'_') {
        Some(last) => &name[..last + 1],
        None => &name[..0],
    }
}

// Whether a word is one of a list that blanks separate.
fn is_listed(list: &[u8], word: &[u8]) -> bool
    ensures { result ≡ is_listed list.now word.now }
{
    list.split(|c| *c == b' ').any(|listed| listed == word)
}

// Words that C or Rust keeps for itself, and names of types that the forms use.
fn is_kept(word: &[u8]) -> bool
    ensures { result ≡ is_kept word.now }
{
    is_listed(
        b"auto break case char const continue default do double else enum extern float for goto if inline int long register restrict return short signed sizeof static struct switch typedef union unsigned void volatile while _Alignas _Alignof _Atomic _Bool _Complex _Generic _Imaginary _Noreturn _Static_assert _Thread_local NULL linux unix i386 asm typeof as crate false fn impl in let loop match mod move mut pub ref self Self super trait true type unsafe use where async await dyn abstract become box final macro override priv unsized virtual yield try gen u8 u16 u32 u64 i8 i16 i32 i64 f32 f64 bool str usize isize",
        word,
    )
}

fn is_all_digits(word: &[u8]) -> bool
    ensures { result ≡ list_all is_ascii_digit word.now }
{
    word.iter().all(|c| c.is_ascii_digit())
}

// Whether digits follow a prefix up to the end.
fn is_numbered(word: &[u8], prefix: &[u8]) -> bool
    ensures { result ≡ is_numbered word.now prefix.now }
{
    word.strip_prefix(prefix)
        .is_some_and(|rest| is_all_digits(rest))
}

// A name that a number makes, or that is kept, gets an underscore, and so does one that is made so: two names stay two.
fn put_identifier<W: Write>(out: &mut Writer<W>, name: &[u8])
    ensures written { Writes W.contents out.old (identifier_text name.now) out.new }
    ensures apart { StaysApart name.now }
{
    let stem = stem(name);
    let made = is_numbered(stem, b"unused_at_")
        | is_numbered(stem, b"type_")
        | is_numbered(stem, b"member_");
    out.put_text(name);
    if made | is_kept(stem) {
        out.put_byte(b'_');
    }
}

// A name as an identifier, unless it stands there already; or else a number after a text.
// Kept: as `put_name` of sheet_types but for the test and the way to write the name, which one function would take as two closures.
fn put_name<W: Write>(
    out: &mut Writer<W>,
    name: Option<&[u8]>,
    earlier: bool,
    otherwise: &[u8],
    number: u32,
)
    ensures { Writes W.contents out.old (name_text (lent name.entry) earlier otherwise.now number) out.new }
{
    match name {
        Some(name) if is_identifier(name) & !earlier => put_identifier(out, name),
        _ => out.put_with(otherwise, u64::from(number), b""),
    }
}

// Whether there is a name, and it is an identifier. What has none goes by its number, whatever stands before it: no other name is compared with it.
fn has_identifier(name: Option<&[u8]>) -> bool
    ensures { result ≡ has_identifier (lent name.entry) }
{
    name.is_some_and(|name| is_identifier(name))
}

fn is_type_named(t: Type, name: Option<&[u8]>) -> bool
    ensures { result ≡ is_same (type_name t.entry.sheet.text.now t.entry.sheet.names.now t.entry.i) (lent name.entry) }
{
    t.name() == name
}

fn is_member_named(of: Type, j: u32, name: Option<&[u8]>) -> bool
    ensures { result ≡ is_same (member_name of.entry.sheet.text.now of.entry.sheet.names.now of.entry.sheet.types.now of.entry.i j) (lent name.entry) }
{
    of.member_name(j) == name
}

// The identifier of struct i.
// Kept: this and the next one are alike, for a type and for a member; a trait of both would have two impls in their place.
pub fn put_type<W: Write>(out: &mut Writer<W>, t: Type)
    ensures written { Writes W.contents out.old (type_text t.entry.sheet t.entry.i) out.new }
    ensures alone { TypeStandsAlone t.entry.sheet t.entry.i }
{
    let name = t.name();
    let earlier = has_identifier(name) && (0..t.i).any(|k| is_type_named(t.other(k), name));
    put_name(out, name, earlier, b"type_", t.i);
}

// The identifier of a member.
pub fn put_member<W: Write>(out: &mut Writer<W>, member: Member)
    ensures written { Writes W.contents out.old (member_text member.entry.of.sheet member.entry.of.i member.entry.j) out.new }
    ensures alone { MemberStandsAlone member.entry.of.sheet member.entry.of.i member.entry.j }
{
    let name = member.name();
    let earlier = has_identifier(name)
        && (0..member.j).any(|k| is_member_named(member.of, k, name));
    put_name(out, name, earlier, b"member_", member.j);
}
