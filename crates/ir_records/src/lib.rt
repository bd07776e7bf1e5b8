// The type and member records of naga's ir/mod.rs, as words in the caller's tables, and refusal 1.
// Kept: `types`, `members`, `rows`: the tables that a caller lends. Crates in which many functions read two that are shared have a struct of them
// (place_short::Recorded, immediates_walk::ArenaType, place_report::Before); most functions of the core read one, or write the rows, which are lent with
// `&mut`: a struct of all three would be lent so too, and each contract say what it leaves of each.
#![tactic(auto)]

ghost use Rattle.std.specs.Prelude.{◌≡◌, ◌&&◌, ℕ, ◌+◌, ◌*◌, ◌/◌, ◌≤◌, ◌<◌, eqb, length, get_or, take, drop, [], ◌∷◌};
ghost use Rattle.ir_records.specs.Record.{type_word, type_count, member_words, member_count, member_type, member_offset, member_location};
ghost use Rattle.ir_records.specs.Record.{member_source, array_kind, inner_in, type_inner, struct_members, record_of, array_words};
ghost use Rattle.ir_records.specs.Serving.{record_words, size_of};
ghost use Rattle.ir_records.specs.Kinds.{kind_number, NamesKind, NamesScalarKind};
ghost use Rattle.ir_records.specs.Refusal.{number_of, type_refusal, refusal, at_type, RefusedUnless, LengthsTold};
ghost use Rattle.ir_records.specs.Fields.{tables_fit, capabilities_known, is_unlocated, sources_located};

// Data that is neither array nor struct: 01's leaves.
// Kept: words and no ScalarKind, AddressSpace, ImageDimension, ImageClass or size of a binding array, here and in NonData: what a record says is asked
// for before number 2 has passed it, and of any words.
#[derive(Clone, Copy, Debug, PartialEq, Eq)]
pub enum Leaf {
    Scalar(u32, u32),
    Vector(u32, u32, u32),
    Matrix(u32, u32, u32, u32),
    CooperativeMatrix(u32, u32, u32, u32, u32),
    Atomic(u32, u32),
    RayQuery(u32),
}

// What is no data.
#[derive(Clone, Copy, Debug, PartialEq, Eq)]
pub enum NonData {
    Pointer(u32, u32),
    ValuePointer(u32, u32, u32),
    Image(u32, u32, u32),
    Sampler,
    AccelerationStructure(u32),
    BindingArray(u32, u32, u32),
}

// What a type record says. The member rows of a struct are asked for by struct_members.
#[derive(Clone, Copy, Debug, PartialEq, Eq)]
pub enum TypeInner {
    Plain(Leaf),
    Array { base: u32, count: u32, stride: u32 },
    RuntimeArray { base: u32, stride: u32 },
    Struct { count: u32, span: u32 },
    Other(NonData),
}

// The kind of a record and the five words after it.
#[derive(Clone, Copy, Debug, PartialEq, Eq)]
pub struct Words {
    pub kind: u32,
    pub a: u32,
    pub b: u32,
    pub c: u32,
    pub d: u32,
    pub e: u32,
}

/// The kind of a type record: naga's TypeInner, by its number.
#[derive(Clone, Copy, Debug, PartialEq, Eq)]
pub enum Kind {
    Scalar = 0,
    Vector = 1,
    Matrix = 2,
    CooperativeMatrix = 3,
    Atomic = 4,
    Pointer = 5,
    ValuePointer = 6,
    Array = 7,
    Struct = 8,
    Image = 9,
    Sampler = 10,
    AccelerationStructure = 11,
    RayQuery = 12,
    BindingArray = 13,
}

/// naga's ScalarKind, by its number.
#[derive(Clone, Copy, Debug, PartialEq, Eq)]
pub enum ScalarKind {
    Sint = 0,
    Uint = 1,
    Float = 2,
    Bool = 3,
    AbstractInt = 4,
    AbstractFloat = 5,
}

/// Why an input is refused, by naga's names where naga has one; `u32::from` gives the number of 01 and 02.
#[derive(Clone, Copy, Debug, PartialEq, Eq)]
pub enum Fault {
    TableLength = 1,
    FieldOutside = 2,
    BaseOutside = 3,
    TooLarge = 4,
    InvalidArrayElementType = 5,
    InvalidStructMemberType = 6,
    NonPowerOfTwoWidth = 7,
    MissingCapability = 8,
    InvalidWidth = 9,
    AbstractScalar = 10,
    MatrixElementNotFloat = 11,
    InvalidAtomicWidth = 12,
    InvalidPointerBase = 13,
    InvalidPointerToUnsized = 14,
    InvalidArrayBaseType = 15,
    EmptyStruct = 16,
    InvalidData = 17,
    MemberOverlap = 18,
    MemberOutOfBounds = 19,
    InvalidDynamicArray = 20,
    StructSum = 21,
    UnsupportedImageType = 22,
    BindingArrayBaseTypeNotStruct = 23,
    BindingArrayBaseExternalTextures = 24,
    PastImmediates = 25,
    NoSuchType = 26,
    NarrowStride = 27,
    ModuleHeader = 28,
    ModuleType = 29,
    ModuleOrder = 30,
    Grammar = 31,
    Name = 32,
    Attribute = 33,
    InvalidBlendSrc = 34,
    NoOrder = 35,
    Dispatch = 36,
    PassRange = 37,
}

impl From<Fault> for u32 {
    ghost from_gives = { λ fault result. result ≡ number_of fault };

    fn from(fault: Fault) -> u32 {
        fault as u32
    }
}

/// A refusal of one type: the position of the member that it names, and the detail; 0 where 01 names none.
// Kept: 0 and no Option, here and in Refusal: 01 gives a refusal as four numbers, which the definitions have as they are. With Options `judged` and
// `outcome_of` would turn none into 0, as would each function that puts an answer, and no rule asks whether a member is named.
#[derive(Clone, Copy, Debug, PartialEq, Eq)]
pub struct TypeRefusal {
    pub fault: Fault,
    pub member: u32,
    pub detail: u32,
}

/// A refusal of a call: the first refused type beside what is refused of it; 0 where 01 names none.
#[derive(Clone, Copy, Debug, PartialEq, Eq)]
pub struct Refusal {
    pub fault: Fault,
    pub ty: u32,
    pub member: u32,
    pub detail: u32,
}

impl TypeRefusal {
    pub fn of(fault: Fault) -> Self
        ensures { result ≡ type_refusal fault 0 0 }
    {
        TypeRefusal {
            fault,
            member: 0,
            detail: 0,
        }
    }

    pub fn of_member(fault: Fault, member: u32) -> Self
        ensures { result ≡ type_refusal fault member 0 }
    {
        TypeRefusal {
            fault,
            member,
            detail: 0,
        }
    }

    pub fn with_detail(fault: Fault, detail: u32) -> Self
        ensures { result ≡ type_refusal fault 0 detail }
    {
        TypeRefusal {
            fault,
            member: 0,
            detail,
        }
    }

    /// The same as an answer about type `ty`.
    pub fn at(self, ty: u32) -> Refusal
        ensures { result ≡ refusal self.fault ty self.member self.detail }
    {
        Refusal {
            fault: self.fault,
            ty,
            member: self.member,
            detail: self.detail,
        }
    }
}

/// The judgement of one type as an answer about type `ty`.
// Kept: it takes a Result, since what it does is `map_err`: without it each caller would write the closure, with a contract of its own.
pub fn at_type<T>(judged: Result<T, TypeRefusal>, ty: u32) -> Result<T, Refusal>
    ensures { result ≡ at_type judged ty }
{
    judged.map_err(|refusal| refusal.at(ty))
}

impl Refusal {
    pub fn of(fault: Fault) -> Self
        ensures { result ≡ refusal fault 0 0 0 }
    {
        Refusal {
            fault,
            ty: 0,
            member: 0,
            detail: 0,
        }
    }

    /// The answer's four words: number, type, member, detail.
    pub fn words(self) -> [u32; 4]
        ensures { result ≡ number_of self.fault ∷ self.ty ∷ self.member ∷ self.detail ∷ [] }
    {
        [u32::from(self.fault), self.ty, self.member, self.detail]
    }
}

impl TryFrom<u32> for Kind {
    type Error = TypeRefusal;

    ghost try_from_gives = { NamesKind };

    /// Number 2 for a number of no kind.
    fn try_from(number: u32) -> Result<Self, TypeRefusal> {
        match number {
            0 => Ok(Kind::Scalar),
            1 => Ok(Kind::Vector),
            2 => Ok(Kind::Matrix),
            3 => Ok(Kind::CooperativeMatrix),
            4 => Ok(Kind::Atomic),
            5 => Ok(Kind::Pointer),
            6 => Ok(Kind::ValuePointer),
            7 => Ok(Kind::Array),
            8 => Ok(Kind::Struct),
            9 => Ok(Kind::Image),
            10 => Ok(Kind::Sampler),
            11 => Ok(Kind::AccelerationStructure),
            12 => Ok(Kind::RayQuery),
            13 => Ok(Kind::BindingArray),
            _ => Err(TypeRefusal::of(Fault::FieldOutside)),
        }
    }
}

impl TryFrom<u32> for ScalarKind {
    type Error = TypeRefusal;

    ghost try_from_gives = { NamesScalarKind };

    /// Number 2 for a number of no scalar kind.
    fn try_from(number: u32) -> Result<Self, TypeRefusal> {
        match number {
            0 => Ok(ScalarKind::Sint),
            1 => Ok(ScalarKind::Uint),
            2 => Ok(ScalarKind::Float),
            3 => Ok(ScalarKind::Bool),
            4 => Ok(ScalarKind::AbstractInt),
            5 => Ok(ScalarKind::AbstractFloat),
            _ => Err(TypeRefusal::of(Fault::FieldOutside)),
        }
    }
}

/// How many type and member records a reader made.
#[derive(Clone, Copy, Debug, Default, PartialEq, Eq)]
pub struct Records {
    pub types: u32,
    pub members: u32,
}

pub const TYPE_WORDS: usize = 6;

pub const MEMBER_WORDS: usize = 4;

pub const ROW_WORDS: usize = 14;

/// How many types and how many member rows an arena has at most.
pub const MOST_TYPES: usize = 1024;

pub const MOST_MEMBERS: usize = 4096;

/// How many words the tables of such an arena have, and the rows of its types.
pub const TYPE_TABLE: usize = MOST_TYPES * TYPE_WORDS;

pub const MEMBER_TABLE: usize = MOST_MEMBERS * MEMBER_WORDS;

pub const ROW_TABLE: usize = MOST_TYPES * ROW_WORDS;

// Bits 0 to 13.
const ALL_CAPABILITIES: u32 = 16383;

impl Words {
    /// Whether the record is of this kind.
    pub fn is(self, kind: Kind) -> bool
        ensures { result ≡ eqb self.kind (kind_number kind) }
    {
        self.kind == kind as u32
    }

    /// A record of this kind whose first words are these; the fifth is 0.
    pub fn of(kind: u32, a: u32, b: u32, c: u32, d: u32) -> Words
        ensures { result ≡ record_of kind a b c d }
    {
        Words {
            kind,
            a,
            b,
            c,
            d,
            e: 0,
        }
    }

    /// The record of an array over this base; no size: of a runtime array.
    pub fn array(base: u32, size: Option<u32>, stride: u32) -> Words
        ensures { result ≡ array_words size base stride }
    {
        match size {
            Some(count) => Words::of(Kind::Array as u32, base, 0, count, stride),
            None => Words::of(Kind::Array as u32, base, 1, 0, stride),
        }
    }

    /// The words one after the other, as a table has them.
    pub fn words(self) -> [u32; 6]
        ensures { result ≡ self.kind ∷ self.a ∷ self.b ∷ self.c ∷ self.d ∷ self.e ∷ [] }
    {
        [self.kind, self.a, self.b, self.c, self.d, self.e]
    }

    /// How many elements an array has; none for a runtime array.
    pub fn array_size(self) -> Option<u32>
        ensures { result ≡ size_of self.b self.c }
    {
        (self.b == 0).then_some(self.c)
    }
}

/// An item of a table; `otherwise` past it.
pub fn item_or<T: Copy>(items: &[T], at: usize, otherwise: T) -> T
    ensures { result ≡ get_or items.now at otherwise }
{
    items.get(at).copied().unwrap_or(otherwise)
}

// A word of a table; 0 past it.
pub fn word_at(words: &[u32], at: usize) -> u32
    ensures { result ≡ get_or words.now at 0 }
{
    item_or(words, at, 0)
}

/// Word k of row i of a table with so many words a row; 0 past the table.
pub fn table_word(words: &[u32], width: u32, i: u32, k: u32) -> u32
    ensures { result ≡ get_or words.now (i * width + k) 0 }
{
    word_at(words, (i as usize) * (width as usize) + (k as usize))
}

/// The same of a row that the table has, with no test of its length.
pub fn own_table_word(words: &[u32], width: usize, i: u32, k: usize) -> u32
    requires { i * width + k < length words.now }
    ensures { result ≡ get_or words.now (i * width + k) 0 }
{
    words[(i as usize) * width + k]
}

// Word k of record i; 0 past the table.
// Kept: one line over table_word, as member_type and those after it: a caller that gave the width could give that of another table.
pub fn type_word(types: &[u32], i: u32, k: u32) -> u32
    ensures { result ≡ type_word types.now i k }
{
    table_word(types, TYPE_WORDS as u32, i, k)
}

// The same of a record that the table has.
pub fn own_word(types: &[u32], i: u32, k: usize) -> u32
    requires { i * 6 + k < length types.now }
    ensures { result ≡ type_word types.now i k }
{
    own_table_word(types, TYPE_WORDS, i, k)
}

/// Whether type i is of this kind; past the table every word is 0.
pub fn is_of_kind(types: &[u32], i: u32, kind: Kind) -> bool
    ensures { result ≡ eqb (type_word types.now i 0) (kind_number kind) }
{
    type_word(types, i, 0) == kind as u32
}

// Kept: type_count and member_count are a length by a width; one function of the width would be that division itself.
pub fn type_count(types: &[u32]) -> usize
    ensures { result ≡ type_count types.now }
{
    types.len() / TYPE_WORDS
}

/// How many rows a member table has, or a struct's part of it.
// Kept: as type_count.
pub fn member_count(members: &[u32]) -> usize
    ensures { result ≡ member_count members.now }
{
    members.len() / MEMBER_WORDS
}

// The words of a member record: the type, the offset, and the location and the blend source, each plus one, 0 for none.
const TYPE: u32 = 0;

const OFFSET: u32 = 1;

const LOCATION: u32 = 2;

const SOURCE: u32 = 3;

// Kept: these four are one line each over table_word, by four definitions; with the word's position as a parameter each caller would name the position.
// And a location or a source is the word as it is stored, value plus one or 0: the rules compare these words, and an Option would be made for each comparison.
pub fn member_type(part: &[u32], j: u32) -> u32
    ensures { result ≡ member_type part.now j }
{
    table_word(part, MEMBER_WORDS as u32, j, TYPE)
}

// Kept: as member_type.
pub fn member_offset(part: &[u32], j: u32) -> u32
    ensures { result ≡ member_offset part.now j }
{
    table_word(part, MEMBER_WORDS as u32, j, OFFSET)
}

// Kept: as member_type.
pub fn member_location(part: &[u32], j: u32) -> u32
    ensures { result ≡ member_location part.now j }
{
    table_word(part, MEMBER_WORDS as u32, j, LOCATION)
}

// Kept: as member_type.
pub fn member_source(part: &[u32], j: u32) -> u32
    ensures { result ≡ member_source part.now j }
{
    table_word(part, MEMBER_WORDS as u32, j, SOURCE)
}

// Kept: the same four of a row that the part has, with no test of its length, by the number at which the part's rows stand: a part may be longer than
// its rows, and the loops over all rows of a part read by them. `Members` has methods for the rows of a struct.
pub fn own_type(part: &[u32], j: usize) -> u32
    requires { j * member_words + member_words ≤ length part.now }
    ensures { result ≡ member_type part.now j }
{
    part[j * MEMBER_WORDS + TYPE as usize]
}

// Kept: as own_type.
pub fn own_offset(part: &[u32], j: usize) -> u32
    requires { j * member_words + member_words ≤ length part.now }
    ensures { result ≡ member_offset part.now j }
{
    part[j * MEMBER_WORDS + OFFSET as usize]
}

// Kept: as own_type.
pub fn own_location(part: &[u32], j: usize) -> u32
    requires { j * member_words + member_words ≤ length part.now }
    ensures { result ≡ member_location part.now j }
{
    part[j * MEMBER_WORDS + LOCATION as usize]
}

// Kept: as own_type.
pub fn own_source(part: &[u32], j: usize) -> u32
    requires { j * member_words + member_words ≤ length part.now }
    ensures { result ≡ member_source part.now j }
{
    part[j * MEMBER_WORDS + SOURCE as usize]
}

// Whether row j has a blend source and no location.
fn is_unlocated(part: &[u32], j: usize) -> bool
    requires { j < member_count part.now }
    ensures { result ≡ is_unlocated part.now j }
{
    let source = own_source(part, j);
    let location = own_location(part, j);
    (0 < source) & (location == 0)
}

// Number 2 of a struct's own rows: a blend source requires a location.
pub fn sources_located(part: &[u32]) -> bool
    ensures { result ≡ sources_located part.now }
{
    !(0..member_count(part)).any(|j| is_unlocated(part, j))
}

// An array of a count, or a runtime array.
#[tactic(auto, unfolding(crate::specs::Record::inner_of))]
fn array_of(w: Words) -> TypeInner
    ensures { w.kind ≡ array_kind → result ≡ inner_in w }
{
    match w.array_size() {
        Some(count) => TypeInner::Array {
            base: w.a,
            count,
            stride: w.d,
        },
        None => TypeInner::RuntimeArray {
            base: w.a,
            stride: w.d,
        },
    }
}

// What a record with these words says.
#[tactic(auto, unfolding(crate::specs::Record::inner_of))]
fn inner_of(w: Words) -> TypeInner
    ensures { result ≡ inner_in w }
{
    match Kind::try_from(w.kind) {
        Ok(Kind::Scalar) => TypeInner::Plain(Leaf::Scalar(w.a, w.b)),
        Ok(Kind::Vector) => TypeInner::Plain(Leaf::Vector(w.a, w.b, w.c)),
        Ok(Kind::Matrix) => TypeInner::Plain(Leaf::Matrix(w.a, w.b, w.c, w.d)),
        Ok(Kind::CooperativeMatrix) => {
            TypeInner::Plain(Leaf::CooperativeMatrix(w.a, w.b, w.c, w.d, w.e))
        }
        Ok(Kind::Atomic) => TypeInner::Plain(Leaf::Atomic(w.a, w.b)),
        Ok(Kind::Pointer) => TypeInner::Other(NonData::Pointer(w.a, w.b)),
        Ok(Kind::ValuePointer) => TypeInner::Other(NonData::ValuePointer(w.a, w.b, w.c)),
        Ok(Kind::Array) => array_of(w),
        Ok(Kind::Struct) => TypeInner::Struct {
            count: w.b,
            span: w.c,
        },
        Ok(Kind::Image) => TypeInner::Other(NonData::Image(w.a, w.b, w.c)),
        Ok(Kind::Sampler) => TypeInner::Other(NonData::Sampler),
        Ok(Kind::AccelerationStructure) => TypeInner::Other(NonData::AccelerationStructure(w.a)),
        Ok(Kind::RayQuery) => TypeInner::Plain(Leaf::RayQuery(w.a)),
        _ => TypeInner::Other(NonData::BindingArray(w.a, w.b, w.c)),
    }
}

// The six words of record i, which the table has.
// Kept: `i * 6 + 6 ≤ length types.now`: the table is read at one record here and at others next; a view of one record is Words, which this makes.
pub fn own_record(types: &[u32], i: u32) -> Words
    requires { i * 6 + 6 ≤ length types.now }
    ensures { result ≡ record_words types.now i }
{
    Words {
        kind: own_word(types, i, 0),
        a: own_word(types, i, 1),
        b: own_word(types, i, 2),
        c: own_word(types, i, 3),
        d: own_word(types, i, 4),
        e: own_word(types, i, 5),
    }
}

// The same of a record that the table may end within or before; 0 past it.
// Kept: the six reads of own_record, each with a test of the length; one function of a closure that reads word k would need a contract that says what
// each of six calls gives, and two functions around it.
fn cut_record(types: &[u32], i: u32) -> Words
    ensures { result ≡ record_words types.now i }
{
    Words {
        kind: type_word(types, i, 0),
        a: type_word(types, i, 1),
        b: type_word(types, i, 2),
        c: type_word(types, i, 3),
        d: type_word(types, i, 4),
        e: type_word(types, i, 5),
    }
}

// The same of any record, with one test of the table's length where the record is whole.
pub fn record_words(types: &[u32], i: u32) -> Words
    ensures { result ≡ record_words types.now i }
{
    if (i as usize) * TYPE_WORDS + TYPE_WORDS <= types.len() {
        own_record(types, i)
    } else {
        cut_record(types, i)
    }
}

// Record i of a table.
pub fn type_inner(types: &[u32], i: u32) -> TypeInner
    ensures { result ≡ type_inner types.now i }
{
    inner_of(record_words(types, i))
}

/// The member rows of a struct: so many of the member table, which stand there whole.
// Kept: a count beside the words: it is what the record says and what loops and definitions count to; got from the length it would be a division by
// four, and each reader would have to cite that the two agree.
#[derive(Clone, Copy, Debug, PartialEq, Eq)]
pub struct Members<'a> {
    pub words: &'a [u32],
    pub count: u32,
    pub ghost counted: { length words.now ≡ count * member_words },
}

impl<'a> Members<'a> {
    /// The type of member j.
    // Kept: `j < self.count`: the loops over members have it from their range; a type of such numbers would be made of each j for one call.
    // Kept: these four are one line each over own_table_word, as member_type and those after it over table_word.
    pub fn type_of(self, j: u32) -> u32
        requires { j < self.count }
        ensures { result ≡ member_type self.entry.words.now j }
    {
        own_table_word(self.words, MEMBER_WORDS, j, TYPE as usize)
    }

    // Kept: as type_of.
    pub fn offset_of(self, j: u32) -> u32
        requires { j < self.count }
        ensures { result ≡ member_offset self.entry.words.now j }
    {
        own_table_word(self.words, MEMBER_WORDS, j, OFFSET as usize)
    }

    /// The location plus one, 0 for none.
    // Kept: as type_of.
    pub fn location_of(self, j: u32) -> u32
        requires { j < self.count }
        ensures { result ≡ member_location self.entry.words.now j }
    {
        own_table_word(self.words, MEMBER_WORDS, j, LOCATION as usize)
    }

    /// The blend source plus one, 0 for none.
    // Kept: as type_of.
    pub fn source_of(self, j: u32) -> u32
        requires { j < self.count }
        ensures { result ≡ member_source self.entry.words.now j }
    {
        own_table_word(self.words, MEMBER_WORDS, j, SOURCE as usize)
    }
}

// So many member rows from a first one on, which the table has.
pub fn member_part(members: &[u32], first: u32, count: u32) -> Members
    requires { first + count ≤ member_count members.now }
    ensures words { result.words.now ≡ take (count * member_words) (drop (first * member_words) members.now) }
    ensures count { result.count ≡ count }
{
    let start = (first as usize) * MEMBER_WORDS;
    let end = start + (count as usize) * MEMBER_WORDS;
    Members {
        words: &members[start..end],
        count,
    }
}

// The member rows of struct i, handed back as that part of the caller's table.
pub fn struct_members<'a>(types: &[u32], members: &'a [u32], i: u32) -> &'a [u32]
    ensures { result.now ≡ struct_members types.now members.now i }
{
    let first = type_word(types, i, 1);
    let count = type_word(types, i, 2);
    let last = first as usize + count as usize;
    if ((i as usize) < type_count(types))
        & is_of_kind(types, i, Kind::Struct)
        & (last <= member_count(members))
    {
        return member_part(members, first, count).words;
    }
    &members[..0]
}

/// A refusal where a test fails.
pub fn require<E: Copy>(fit: bool, refusal: E) -> Result<(), E>
    ensures { RefusedUnless result refusal fit }
{
    if fit { Ok(()) } else { Err(refusal) }
}

/// Number 1 where a test of lengths or of the capability word fails.
pub fn require_lengths(fit: bool) -> Result<(), Refusal>
    ensures { LengthsTold result fit }
{
    require(fit, Refusal::of(Fault::TableLength))
}

/// Number 1: whole records, not too many, and a row for each type.
// Kept: three lengths, and no tables: calls that lend three words a type ask it of rows that they have not.
pub fn tables_fit(types: usize, members: usize, rows: usize) -> Result<(), Refusal>
    ensures { LengthsTold result (tables_fit types members rows) }
{
    let enough = types / TYPE_WORDS <= rows / ROW_WORDS;
    require_lengths(
        (types % TYPE_WORDS == 0)
            & (types <= TYPE_TABLE)
            & (members % MEMBER_WORDS == 0)
            & (members <= MEMBER_TABLE)
            & enough,
    )
}

/// Number 1: no capability bit above 13.
pub fn capabilities_known(capabilities: u32) -> Result<(), Refusal>
    ensures { LengthsTold result (capabilities_known capabilities) }
{
    require_lengths(capabilities <= ALL_CAPABILITIES)
}
