// The blend sources of a struct, of validate_type in naga's valid/type.rs.
#![tactic(auto)]

ghost use Rattle.ir_records.specs.declared.Fault.TheVariants.{InvalidBlendSrc};
ghost use Rattle.std.specs.Prelude.{◌≡◌, false, ℕ, ◌+◌, ◌*◌, ◌≤◌, ◌<◌, length};
ghost use Rattle.ir_records.specs.Record.{member_words, member_count, type_inner, member_type, Sourceless};
ghost use Rattle.ir_records.specs.Kinds.{kind_number};
ghost use Rattle.valid_flags.specs.Flags.{bit};
ghost use Rattle.valid_width.specs.Width.{dual_source_blending};
ghost use Rattle.valid_blend.specs.Blend.{source_at, source_result, sources_after, is_other, other_location, leaf_words};
ghost use Rattle.valid_blend.specs.Blend.{inner_words, same_words, same_type, pair_of, struct_blend};
ghost use Rattle.ir_records.specs.Refusal.{judged, number_of, type_refusal};
ghost use Rattle.valid_blend.specs.Serving.{sources_before, blended_flags, plus_one, detail_of, Gives};

use ir_records::{Fault, Kind, Leaf, Members, TypeInner, TypeRefusal, Words};

// The last of the first n members whose blend source is stored as this word.
// Kept: `part`, `n`: how many members are looked at, and not how long the part is.
// Kept: a loop, since the last one is found from the end: `rfind` was tried, and std has no law of what a range yields from there.
pub fn source_at(part: &[u32], word: u32, n: u32) -> Option<u32>
    ensures { plus_one result ≡ source_at part.now word n }
{
    for j in (0..n).rev() {
        if ir_records::member_source(part, j) == word {
            return Some(j);
        }
    }
    None
}

// Whether member j has a location and no blend source.
fn is_other(part: &[u32], j: u32) -> bool
    ensures { result ≡ is_other part.now j }
{
    (ir_records::member_source(part, j) == 0) & (0 < ir_records::member_location(part, j))
}

// Whether one of the first n members is such.
// Kept: `part`, `n`: of the caller, as pair_of has them.
fn other_location(part: &[u32], n: u32) -> bool
    ensures { result ≡ other_location part.now n }
{
    (0..n).any(|j| is_other(part, j))
}

/// Why the blend sources of a struct are refused, by naga's names; the details of number 34.
#[derive(Clone, Copy, Debug, PartialEq, Eq)]
pub enum BlendFault {
    InvalidBlendSrcIndex = 1,
    BindingCollisionBlendSrc = 2,
    InvalidBlendSrcWithOtherBindings = 3,
    BlendSrcOutputTypeMismatch = 4,
    NotIoShareableType = 5,
    IncompleteBlendSrcUsage = 6,
}

impl From<BlendFault> for TypeRefusal {
    ghost from_gives = { λ fault result. result ≡ type_refusal InvalidBlendSrc 0 (detail_of fault) };

    fn from(fault: BlendFault) -> TypeRefusal {
        TypeRefusal::with_detail(Fault::InvalidBlendSrc, fault as u32)
    }
}

// Number 8, and 34 with detail 1 and 2, of member j.
fn source_of(capabilities: u32, part: &[u32], j: u32) -> Result<(), TypeRefusal>
    ensures { judged result ≡ source_result (bit capabilities dual_source_blending) part.now j }
{
    let word = ir_records::member_source(part, j);
    let location = ir_records::member_location(part, j);
    if word == 0 {
        return Ok(());
    }
    valid_width::require_type_capability(capabilities, valid_width::DUAL_SOURCE_BLENDING)?;
    if !((location == 1) & (word <= 2)) {
        return Err(BlendFault::InvalidBlendSrcIndex.into());
    }
    if source_at(part, word, j).is_some() {
        return Err(BlendFault::BindingCollisionBlendSrc.into());
    }
    Ok(())
}

// The same of the first n members, one after the other.
// Kept: `part`, `n`: as source_at.
pub fn sources_of(capabilities: u32, part: &[u32], n: u32) -> Result<(), TypeRefusal>
    ensures { judged result ≡ sources_after (bit capabilities dual_source_blending) part.now n }
{
    for j in 0..n {
        source_of(capabilities, part, j)?;
    }
    Ok(())
}

fn leaf_words(leaf: Leaf) -> Words
    ensures { result ≡ leaf_words leaf }
{
    match leaf {
        Leaf::Scalar(k, w) => Words::of(Kind::Scalar as u32, k, w, 0, 0),
        Leaf::Vector(n, k, w) => Words::of(Kind::Vector as u32, n, k, w, 0),
        Leaf::Matrix(columns, rows, k, w) => Words::of(Kind::Matrix as u32, columns, rows, k, w),
        Leaf::CooperativeMatrix(columns, rows, k, w, role) => Words {
            e: role,
            ..Words::of(Kind::CooperativeMatrix as u32, columns, rows, k, w)
        },
        Leaf::Atomic(k, w) => Words::of(Kind::Atomic as u32, k, w, 0, 0),
        Leaf::RayQuery(v) => Words::of(Kind::RayQuery as u32, v, 0, 0, 0),
    }
}

fn inner_words(inner: TypeInner) -> Words
    ensures { result ≡ inner_words inner }
{
    match inner {
        TypeInner::Plain(leaf) => leaf_words(leaf),
        TypeInner::Array {
            base,
            count,
            stride,
        } => Words::array(base, Some(count), stride),
        TypeInner::RuntimeArray { base, stride } => Words::array(base, None, stride),
        TypeInner::Struct { count, span } => Words::of(Kind::Struct as u32, 0, count, span, 0),
        TypeInner::Other(_) => Words::of(Kind::Image as u32, 0, 0, 0, 0),
    }
}

// Kept: more than `==`: a struct is never the same type, not even as itself, since there the Rust asserts.
fn same_words(v: Words, w: Words) -> bool
    ensures { result ≡ same_words v w }
{
    (v == w) & !v.is(Kind::Struct)
}

// Whether two records say the same type, and no struct.
// Kept: as same_words.
fn same_type(types: &[u32], s: u32, t: u32) -> bool
    ensures { result ≡ same_type (type_inner types.now s) (type_inner types.now t) }
{
    let v = inner_words(ir_records::type_inner(types, s));
    let w = inner_words(ir_records::type_inner(types, t));
    same_words(v, w)
}

// Number 34 with detail 3 to 5, or the flags, of the struct whose members a and b have source 0 and 1. own: the flags of a's type.
// Kept: `part`, `count`: any part and any count will do; Members says that the one is as long as the other, and would ask that of a caller.
pub fn pair_of(
    types: &[u32],
    own: u32,
    part: &[u32],
    count: u32,
    flags: u32,
    a: u32,
    b: u32,
) -> Result<u32, TypeRefusal>
    ensures { (before : ℕ → ℕ) → before (member_type part.now a) ≡ own
        → judged result ≡ pair_of (type_inner types.now) before part.now (other_location part.now count) flags a b }
{
    if other_location(part, count) {
        return Err(BlendFault::InvalidBlendSrcWithOtherBindings.into());
    }
    let s = ir_records::member_type(part, a);
    let t = ir_records::member_type(part, b);
    if !same_type(types, s, t) {
        return Err(BlendFault::BlendSrcOutputTypeMismatch.into());
    }
    if !valid_flags::is_io_shareable(own) {
        return Err(BlendFault::NotIoShareableType.into());
    }
    Ok(flags | valid_flags::IO_SHAREABLE)
}

// After the last member: number 34 with detail 3 to 6, or the flags. flags_of: those of a type.
fn struct_blend<F: Fn(u32) -> u32>(
    types: &[u32],
    flags_of: F,
    part: Members,
    flags: u32,
) -> Result<u32, TypeRefusal>
    requires { F.IsAlwaysCallable flags_of }
    ensures { (before : ℕ → ℕ) → Gives (F.post flags_of) before
        → judged result ≡ struct_blend (type_inner types.now) before part.entry.words.now part.entry.count flags }
{
    let first = source_at(part.words, 1, part.count);
    let second = source_at(part.words, 2, part.count);
    match (first, second) {
        (None, None) => Ok(flags),
        (Some(a), Some(b)) => {
            let s = ir_records::member_type(part.words, a);
            pair_of(types, flags_of(s), part.words, part.count, flags, a, b)
        }
        (None, Some(_)) => Err(BlendFault::IncompleteBlendSrcUsage.into()),
        (Some(_), None) => Err(BlendFault::IncompleteBlendSrcUsage.into()),
    }
}

// Kept: `sourced ≡ false → Sourceless part.words.now (member_count part.words.now)`, `sourced ≡ false → Sourceless part.now (member_count part.now)`: the flag
// is found with the alignment or with the bounds, and the part is that of the struct; a struct of both would be made of them for this call.
// All rules of blend sources, of a struct whose members leave these flags. sourced: a member may have one; flags_of: the flags of a type.
pub fn blended_flags<F: Fn(u32) -> u32>(
    sourced: bool,
    capabilities: u32,
    types: &[u32],
    flags_of: F,
    part: Members,
    flags: u32,
) -> Result<u32, TypeRefusal>
    requires callable { F.IsAlwaysCallable flags_of }
    requires sourceless { sourced ≡ false → Sourceless part.words.now (member_count part.words.now) }
    ensures { (before : ℕ → ℕ) → Gives (F.post flags_of) before
        → judged result ≡ blended_flags (bit capabilities dual_source_blending) (type_inner types.now) before part.entry.words.now part.entry.count flags }
{
    if !sourced {
        return Ok(flags);
    }
    sources_of(capabilities, part.words, part.count)?;
    struct_blend(types, flags_of, part, flags)
}

// The refusal of a blend source that comes before this refusal of a member.
pub fn source_before(
    sourced: bool,
    capabilities: u32,
    part: &[u32],
    refusal: TypeRefusal,
) -> Result<(), TypeRefusal>
    requires member_words_in_bounds { refusal.member * member_words + member_words ≤ length part.now }
    requires member_bound { refusal.member < 4294967295 }
    requires sourceless { sourced ≡ false → Sourceless part.now (member_count part.now) }
    ensures { judged result ≡ sources_after (bit capabilities dual_source_blending) part.now (sources_before (number_of refusal.fault) refusal.member) }
{
    if !sourced {
        return Ok(());
    }
    if refusal.fault == Fault::InvalidData {
        return sources_of(capabilities, part, refusal.member);
    }
    sources_of(capabilities, part, refusal.member + 1)
}
