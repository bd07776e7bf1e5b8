// The sheet that is written, type by type and member by member, and the names of its structs and members: where they stand in the text or in the
// module's bytes.
#![tactic(auto)]

ghost use Rattle.std.specs.Prelude.{◌≡◌, [], ◌+◌, ◌*◌, ◌<◌, List, ℕ, get_or, slice_get, set, eqb, length, MatchOption, None, Some, true, false};
ghost use Rattle.ir_records.specs.Record.{type_word, type_inner, array_kind, struct_kind, struct_members, member_type, member_offset};
ghost use Rattle.std.specs.Iterator.{at_most};
ghost use Rattle.ir_rows.specs.Rows.{row_word};
ghost use Rattle.valid_flags.specs.Flags.{bit, sized_bit, host_shareable_bit};
ghost use Rattle.wgsl_tokens.specs.Tokens.{from};
ghost use Rattle.sheet_names.specs.Names.{type_place, member_place, name_at, type_name, member_name, NameIs};
ghost use Rattle.sheet_names.specs.Counts.{carried_in, wasted_in, is_counted};
ghost use Rattle.sheet_names.specs.Row.{may_be_immediate, is_usable};
ghost use Rattle.sheet_names.specs.Runtime.{is_runtime};
ghost use Rattle.sheet_names.specs.Walk.{TokenSteps};
ghost use Rattle.sheet_names.specs.Text.{TokensFrom, TextNames, TextNamed};
ghost use Rattle.sheet_names.specs.Serving.{struct_from, first_walk, struct_named, word_passed, member_named, mark_passed, passed};
ghost use Rattle.sheet_names.specs.Module.{type_instructions, type_of, string_of, row_of, type_named, row_named, instruction_named, no_names, module_names};
ghost use Rattle.spirv_words.specs.Module.{word, header_words};
ghost use Rattle.wgsl_tokens.specs.declared.Lexed.{Lexed};

use immediates_ranges::Slots;
use ir_records::{Kind, TypeInner};
use program_words::Span;
use spirv_words::Instructions;
use wgsl_tokens::Lexed;

/// The numbers of types are below this.
pub const MOST_TYPES: u32 = ir_records::MOST_TYPES as u32;

const OP_NAME: u32 = 5;

const OP_MEMBER_NAME: u32 = 6;

/// Where the names of the types stand, and those of the member rows. It is not Copy: a copy of so large a table would be a mistake.
#[derive(Debug, PartialEq, Eq, Drop)]
pub struct NameTable {
    pub types: [Option<Span>; ir_records::MOST_TYPES],
    pub members: [Option<Span>; ir_records::MOST_MEMBERS],
}

/// What a sheet is made of: type and member records, the names of both in a text or in a module's bytes, and what is counted of accepted records:
/// their rows, the bytes carried and wasted of each type, and its slots where it has them.
// Kept: rows, report and slots beside one another, each by the type's number: the calls that judge and report fill tables of words, so that a struct for each type would be a copy of all three.
#[derive(Clone, Copy, Debug, PartialEq, Eq)]
pub struct Sheet<'a> {
    pub text: &'a [u8],
    pub names: &'a NameTable,
    pub types: &'a [u32],
    pub members: &'a [u32],
    pub rows: &'a [u32],
    pub report: &'a [u64],
    pub slots: &'a [Option<Slots>],
}

/// Type i of a sheet.
#[derive(Clone, Copy, Debug, PartialEq, Eq)]
pub struct Type<'a> {
    pub sheet: Sheet<'a>,
    pub i: u32,
}

/// Member j of a struct of a sheet, its type and its offset.
#[derive(Clone, Copy, Debug, PartialEq, Eq)]
pub struct Member<'a> {
    pub of: Type<'a>,
    pub j: u32,
    pub ty: u32,
    pub offset: u32,
}

/// A module whose names are looked for: its words and bytes, the records that were read from it, and where the instruction of each type stands.
#[derive(Clone, Copy, Debug, PartialEq, Eq)]
pub struct Module<'a> {
    pub words: &'a [u32],
    pub bytes: &'a [u8],
    pub types: &'a [u32],
    pub places: &'a [Option<usize>],
}

// The tokens of a text from one place on, up to its end or to one that is bad.
#[derive(Drop)]
struct Tokens<'a> {
    text: &'a [u8],
    at: usize,
}

impl<'a> Iterator for Tokens<'a> {
    type Item = Lexed;

    ghost next_gives = { TokenSteps };

    ghost remaining = { λ s. at_most (length (from s.text.now s.at)) };

    fn next(&mut self) -> Option<Lexed> {
        match wgsl_tokens::next_token(self.text, self.at) {
            Ok(Some(token)) => {
                self.at = token.end();
                Some(token)
            }
            _ => None,
        }
    }
}

// The walk over the tokens of a text: the last word, whether `struct` was the last token, and which struct and member row come next.
#[derive(Drop)]
struct Walk<'a> {
    text: &'a [u8],
    types: &'a [u32],
    names: NameTable,
    last: Option<Span>,
    after_struct: bool,
    ty: u32,
    row: u32,
}

// Where the row of member j of struct i stands among all rows.
fn member_row(types: &[u32], i: u32, j: u32) -> usize
    ensures { result ≡ type_word types.now i 1 + j }
{
    let first = ir_records::type_word(types, i, 1);
    (first as usize) + (j as usize)
}

impl NameTable {
    fn new() -> NameTable
        ensures { result ≡ no_names }
    {
        NameTable {
            types: [None; ir_records::MOST_TYPES],
            members: [None; ir_records::MOST_MEMBERS],
        }
    }
}

// Keeps where a name stands, where the table has a place for it.
// Kept: the number is tested, where `get_mut` would do: no clause of it tells what the table holds once the place is written.
fn put_place(places: &mut [Option<Span>], at: usize, name: Span)
    ensures { places.new ≡ set places.old at (Some name) }
{
    if at < places.len() {
        places[at] = Some(name);
    }
}

impl<'a> Sheet<'a> {
    /// Records and their names, of which nothing is counted yet.
    pub fn of(
        text: &'a [u8],
        names: &'a NameTable,
        types: &'a [u32],
        members: &'a [u32],
    ) -> Sheet<'a>
        ensures text { result.text ≡ text.entry }
        ensures names { result.names ≡ names.entry }
        ensures types { result.types ≡ types.entry }
        ensures members { result.members ≡ members.entry }
        ensures rows { result.rows.now ≡ [] }
        ensures report { result.report.now ≡ [] }
        ensures slots { result.slots.now ≡ [] }
    {
        Sheet {
            text,
            names,
            types,
            members,
            rows: &[],
            report: &[],
            slots: &[],
        }
    }

    pub fn type_at(self, i: u32) -> Type<'a>
        ensures sheet { result.sheet ≡ self.entry }
        ensures i { result.i ≡ i }
    {
        Type { sheet: self, i }
    }

    // The name that stands there.
    fn name_at(self, place: Option<Span>) -> Option<&'a [u8]>
        ensures { NameIs (name_at self.entry.text.now place) result }
    {
        let place = place?;
        self.text.get(place.start..place.end)
    }
}

// Kept: fields of records by their place, `word(1)` and the like, here, in `member_row` and in `Module::row_of`: the contracts tell these words of a record of any kind. `TypeInner` has a field for its own kind alone, and none for the first row of a struct, so that each would be an Option.
impl<'a> Type<'a> {
    /// Another type of the sheet.
    pub fn other(self, i: u32) -> Type<'a>
        ensures sheet { result.sheet ≡ self.entry.sheet }
        ensures i { result.i ≡ i }
    {
        Type { i, ..self }
    }

    /// Word k of its record.
    pub fn word(self, k: u32) -> u32
        ensures { result ≡ type_word self.entry.sheet.types.now self.entry.i k }
    {
        ir_records::type_word(self.sheet.types, self.i, k)
    }

    /// What its record says.
    pub fn inner(self) -> TypeInner
        ensures { result ≡ type_inner self.entry.sheet.types.now self.entry.i }
    {
        ir_records::type_inner(self.sheet.types, self.i)
    }

    // Kept: is_struct and is_array are one line each over is_of_kind; with the kind as a parameter each caller would name it, and they would be is_of_kind.
    pub fn is_struct(self) -> bool
        ensures { result ≡ eqb (type_word self.entry.sheet.types.now self.entry.i 0) struct_kind }
    {
        ir_records::is_of_kind(self.sheet.types, self.i, Kind::Struct)
    }

    pub fn is_array(self) -> bool
        ensures { result ≡ eqb (type_word self.entry.sheet.types.now self.entry.i 0) array_kind }
    {
        ir_records::is_of_kind(self.sheet.types, self.i, Kind::Array)
    }

    /// The type of its elements, where it is an array.
    pub fn element(self) -> Option<Type<'a>>
        ensures { MatchOption result (eqb (type_word self.entry.sheet.types.now self.entry.i 0) array_kind ≡ false)
            (λ e. (eqb (type_word self.entry.sheet.types.now self.entry.i 0) array_kind ≡ true) × (e.sheet ≡ self.entry.sheet)
            × (e.i ≡ type_word self.entry.sheet.types.now self.entry.i 1)) }
    {
        self.is_array().then_some(self.other(self.word(1)))
    }

    /// How far apart its elements lie as an array.
    pub fn stride(self) -> u32
        ensures { result ≡ type_word self.entry.sheet.types.now self.entry.i 4 }
    {
        self.word(4)
    }

    /// Whether it is an array without a count.
    pub fn is_runtime(self) -> bool
        ensures { result ≡ is_runtime (type_inner self.entry.sheet.types.now self.entry.i) }
    {
        matches!(self.inner(), TypeInner::RuntimeArray { .. })
    }

    /// How many members it has as a struct.
    pub fn count(self) -> u32
        ensures { result ≡ type_word self.entry.sheet.types.now self.entry.i 2 }
    {
        self.word(2)
    }

    /// Word j of its row, by the names of ir_rows.
    pub fn row_word(self, j: usize) -> u32
        requires { j < 14 }
        ensures { result ≡ row_word self.entry.sheet.rows.now self.entry.i j }
    {
        ir_rows::row_word(self.sheet.rows, self.i, j as u32)
    }

    pub fn size(self) -> u32
        ensures { result ≡ row_word self.entry.sheet.rows.now self.entry.i 0 }
    {
        self.row_word(ir_rows::SIZE)
    }

    pub fn alignment(self) -> u32
        ensures { result ≡ row_word self.entry.sheet.rows.now self.entry.i 1 }
    {
        self.row_word(ir_rows::ALIGNMENT)
    }

    fn flags(self) -> u32
        ensures { result ≡ row_word self.entry.sheet.rows.now self.entry.i 2 }
    {
        self.row_word(ir_rows::FLAGS)
    }

    /// Whether it is host-shareable.
    pub fn is_shareable(self) -> bool
        ensures { result ≡ bit (row_word self.entry.sheet.rows.now self.entry.i 2) host_shareable_bit }
    {
        valid_flags::is_host_shareable(self.flags())
    }

    pub fn is_sized(self) -> bool
        ensures { result ≡ bit (row_word self.entry.sheet.rows.now self.entry.i 2) sized_bit }
    {
        valid_flags::is_sized(self.flags())
    }

    /// Whether it may stand in immediates as a struct: it is host-shareable and sized, and its immediates word is 0.
    pub fn may_be_immediate(self) -> bool
        ensures { result ≡ may_be_immediate self.entry.sheet.rows.now self.entry.i }
    {
        let word = self.row_word(ir_rows::IMMEDIATES);
        self.is_shareable() & self.is_sized() & (word == 0)
    }

    /// Whether a host may fill a storage buffer with it: it is host-shareable and its storage verdict is Ok.
    // Kept: the code alone: `Verdict::is_ok` is of five words, four of which would be read for nothing, and would ask for valid_type_info here.
    pub fn is_usable(self) -> bool
        ensures { result ≡ is_usable self.entry.sheet.rows.now self.entry.i }
    {
        let verdict = self.row_word(ir_rows::STORAGE);
        self.is_shareable() & (verdict == 0)
    }

    /// Its bytes that carry data, as the report counts them.
    pub fn carried(self) -> u64
        ensures { result ≡ carried_in self.entry.sheet.report.now self.entry.i }
    {
        ir_records::item_or(self.sheet.report, (self.i as usize) * 2, 0)
    }

    /// Its other bytes.
    pub fn wasted(self) -> u64
        ensures { result ≡ wasted_in self.entry.sheet.report.now self.entry.i }
    {
        ir_records::item_or(self.sheet.report, (self.i as usize) * 2 + 1, 0)
    }

    /// Whether its bytes were counted: both counts make up its size, and it is host-shareable.
    pub fn is_counted(self) -> bool
        ensures { result ≡ is_counted self.entry.sheet.rows.now self.entry.sheet.report.now self.entry.i }
    {
        let size = u64::from(self.size());
        let carried = self.carried();
        if size < carried {
            return false;
        }
        (self.wasted() == size - carried) & self.is_shareable()
    }

    /// Its slots, where it may be an immediate.
    pub fn slots(self) -> Option<Slots>
        ensures { result ≡ get_or self.entry.sheet.slots.now self.entry.i None }
    {
        ir_records::item_or(self.sheet.slots, self.i as usize, None)
    }

    /// Where its name stands.
    pub fn place(self) -> Option<Span>
        ensures { result ≡ type_place self.entry.sheet.names.now self.entry.i }
    {
        ir_records::item_or(&self.sheet.names.types, self.i as usize, None)
    }

    pub fn name(self) -> Option<&'a [u8]>
        ensures { NameIs (type_name self.entry.sheet.text.now self.entry.sheet.names.now self.entry.i) result }
    {
        self.sheet.name_at(self.place())
    }

    /// Where the name of its member j stands.
    fn member_place(self, j: u32) -> Option<Span>
        ensures { result ≡ member_place self.entry.sheet.names.now self.entry.sheet.types.now self.entry.i j }
    {
        let row = member_row(self.sheet.types, self.i, j);
        ir_records::item_or(&self.sheet.names.members, row, None)
    }

    /// The name of its member j.
    pub fn member_name(self, j: u32) -> Option<&'a [u8]>
        ensures { NameIs (member_name self.entry.sheet.text.now self.entry.sheet.names.now self.entry.sheet.types.now self.entry.i j) result }
    {
        self.sheet.name_at(self.member_place(j))
    }

    /// Its member j; of type 0 and at offset 0 where it has none.
    // Kept: as an Option it would be None for no caller, since j is below `count` or comes from a verdict or a refusal of this struct; a `requires` would ask of those two what no clause of them says.
    pub fn member(self, j: u32) -> Member<'a>
        ensures of { result.of ≡ self.entry }
        ensures j { result.j ≡ j }
        ensures ty { result.ty ≡ member_type (struct_members self.entry.sheet.types.now self.entry.sheet.members.now self.entry.i) j }
        ensures offset { result.offset ≡ member_offset (struct_members self.entry.sheet.types.now self.entry.sheet.members.now self.entry.i) j }
    {
        let part = ir_records::struct_members(self.sheet.types, self.sheet.members, self.i);
        Member {
            of: self,
            j,
            ty: ir_records::member_type(part, j),
            offset: ir_records::member_offset(part, j),
        }
    }

    /// Its last member.
    pub fn last_member(self) -> Option<Member<'a>>
        ensures { MatchOption result (type_word self.entry.sheet.types.now self.entry.i 2 ≡ 0)
            (λ m. (m.of ≡ self.entry) × (m.j + 1 ≡ type_word self.entry.sheet.types.now self.entry.i 2)
            × (m.ty ≡ member_type (struct_members self.entry.sheet.types.now self.entry.sheet.members.now self.entry.i) m.j)) }
    {
        let last = self.count().checked_sub(1)?;
        Some(self.member(last))
    }
}

impl<'a> Member<'a> {
    /// Its type.
    pub fn own_type(self) -> Type<'a>
        ensures sheet { result.sheet ≡ self.entry.of.sheet }
        ensures i { result.i ≡ self.entry.ty }
    {
        self.of.other(self.ty)
    }

    /// Where its name stands.
    pub fn place(self) -> Option<Span>
        ensures { result ≡ member_place self.entry.of.sheet.names.now self.entry.of.sheet.types.now self.entry.of.i self.entry.j }
    {
        self.of.member_place(self.j)
    }

    pub fn name(self) -> Option<&'a [u8]>
        ensures { NameIs (member_name self.entry.of.sheet.text.now self.entry.of.sheet.names.now self.entry.of.sheet.types.now self.entry.of.i self.entry.j)
            result }
    {
        self.of.member_name(self.j)
    }
}

// The first struct from a type on.
fn struct_from(types: &[u32], from: u32) -> Option<u32>
    ensures { result ≡ struct_from types.now from }
{
    (from..MOST_TYPES).find(|i| ir_records::is_of_kind(types, *i, Kind::Struct))
}

impl<'a> Walk<'a> {
    fn new(text: &'a [u8], types: &'a [u32]) -> Walk<'a>
        ensures { result ≡ first_walk text.entry types.entry }
    {
        Walk {
            text,
            types,
            names: NameTable::new(),
            last: None,
            after_struct: false,
            ty: 0,
            row: 0,
        }
    }

    // A word after `struct` is the name of the next struct.
    fn name_struct(&mut self, word: Span)
        ensures { self.new ≡ struct_named self.old word }
    {
        if let Some(ty) = struct_from(self.types, self.ty) {
            put_place(&mut self.names.types, ty as usize, word);
            self.ty = ty.wrapping_add(1);
        }
    }

    // Any word may be a member's name.
    fn pass_word(&mut self, word: Span)
        ensures { self.new ≡ word_passed self.old word }
    {
        if self.after_struct {
            self.name_struct(word);
        }
        self.after_struct = self.text.get(word.start..word.end) == Some(b"struct");
        self.last = Some(word);
    }

    // The word before a colon is the name of the next member. A number that wrapped would be that of the first one again.
    fn name_member(&mut self)
        ensures { self.new ≡ member_named self.old }
    {
        if let Some(name) = self.last {
            put_place(&mut self.names.members, self.row as usize, name);
        }
        self.row = self.row.saturating_add(1);
    }

    // A colon stands after the name of a member, and nowhere else.
    fn pass_mark(&mut self, byte: u8)
        ensures { self.new ≡ mark_passed self.old byte }
    {
        if byte == b':' {
            self.name_member();
        }
        self.after_struct = false;
    }

    fn pass_token(&mut self, token: Lexed)
        ensures { self.new ≡ passed self.old token }
    {
        match token {
            Lexed::Word(word) => self.pass_word(word),
            Lexed::Mark { byte, .. } => self.pass_mark(byte),
            Lexed::Number { .. } | Lexed::Large(_) => self.after_struct = false,
        }
    }
}

/// The names of a text that was read into these type records.
pub fn from_text(text: &[u8], types: &[u32]) -> NameTable
    ensures places { (tokens : List Lexed) × TokensFrom text.now 0 tokens × TextNames text.now types.now tokens result }
    ensures named { TextNamed text.now types.now result }
{
    let mut walk = Walk::new(text, types);
    for token in (Tokens { text, at: 0 }) {
        walk.pass_token(token);
    }
    walk.names
}

// The places of all instructions of a module.
fn instructions(words: &[u32]) -> Instructions
    ensures words { result.words ≡ words.entry }
    ensures at { result.at ≡ header_words }
    ensures end { result.end ≡ length words.now }
{
    Instructions {
        words,
        at: spirv_words::HEADER_WORDS,
        end: words.len(),
    }
}

/// Where the instruction of each type record stands, where there is one.
pub fn type_places(words: &[u32]) -> [Option<usize>; ir_records::MOST_TYPES]
    ensures { (k : ℕ) → k < 1024 → get_or result k None ≡ slice_get (type_instructions words.now) k }
{
    let mut places = [None; ir_records::MOST_TYPES];
    let mut i = 0;
    // Kept: a count, where `zip` of `iter_mut` with the types would do: no clause tells what a table holds once its places were lent one by one.
    for at in instructions(words) {
        if spirv_ids::is_read(spirv_words::opcode_of(words, at)) & (i < places.len()) {
            places[i] = Some(at);
            i += 1;
        }
    }
    places
}

impl<'a> Module<'a> {
    // The type that word k of an instruction names.
    fn type_of(self, at: usize, k: usize) -> Option<u32>
        ensures { result ≡ type_of self.entry.words.now self.entry.places.now (word self.entry.words.now at k) }
    {
        let id = spirv_words::word_of(self.words, at, k);
        (0..MOST_TYPES).find(|i| {
            let place = ir_records::item_or(self.places, *i as usize, None);
            place.is_some_and(|given| spirv_words::word_of(self.words, given, 1) == id)
        })
    }

    // Where the string of an instruction stands, from its word k on and up to a NUL.
    fn string_of(self, at: usize, k: usize) -> Option<Span>
        ensures { result ≡ string_of self.entry at k }
    {
        let start = at.checked_add(k)?.checked_mul(4)?;
        let next = at.checked_add(spirv_words::word_count(self.words, at))?;
        let words = self.bytes.get(start..next.checked_mul(4)?)?;
        if words.is_empty() {
            return None;
        }
        let length = words.iter().position(|b| *b == 0).unwrap_or(words.len());
        Some(Span {
            start,
            end: start + length,
        })
    }

    // OpName: the string stands after the id.
    fn type_named(self, at: usize) -> Option<(u32, Span)>
        ensures { result ≡ type_named self.entry at }
    {
        let i = self.type_of(at, 1)?;
        Some((i, self.string_of(at, 2)?))
    }

    // The row of a member of a type, where it has that member.
    fn row_of(self, i: u32, j: u32) -> Option<usize>
        ensures { result ≡ row_of self.entry.types.now i j }
    {
        let count = ir_records::type_word(self.types, i, 2);
        if ir_records::is_of_kind(self.types, i, Kind::Struct) & (j < count) {
            return Some(member_row(self.types, i, j));
        }
        None
    }

    // OpMemberName: the string stands after the id and the member's number.
    fn row_named(self, at: usize) -> Option<(usize, Span)>
        ensures { result ≡ row_named self.entry at }
    {
        let i = self.type_of(at, 1)?;
        let row = self.row_of(i, spirv_words::word_of(self.words, at, 2))?;
        Some((row, self.string_of(at, 3)?))
    }

    // Keeps the name that an instruction gives.
    fn put_names(self, names: &mut NameTable, at: usize)
        ensures { names.new ≡ instruction_named self.entry at names.old }
    {
        match spirv_words::opcode_of(self.words, at) {
            OP_NAME => {
                if let Some((i, name)) = self.type_named(at) {
                    put_place(&mut names.types, i as usize, name);
                }
            }
            OP_MEMBER_NAME => {
                if let Some((row, name)) = self.row_named(at) {
                    put_place(&mut names.members, row, name);
                }
            }
            _ => {}
        }
    }
}

/// The names of a module that was read into these records: those of its OpName and OpMemberName.
pub fn from_module(module: Module) -> NameTable
    ensures { result ≡ module_names «module».entry }
{
    let mut names = NameTable::new();
    for at in instructions(module.words) {
        module.put_names(&mut names, at);
    }
    names
}
