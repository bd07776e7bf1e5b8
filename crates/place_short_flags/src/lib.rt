// The flags of one type, or its refusal, from three words for each type before it: validate_type of naga's valid/type.rs without its verdicts.
#![tactic(auto)]

ghost use Rattle.std.specs.Prelude.{◌≡◌, false, ℕ, ◌+◌, ◌*◌, ◌≤◌, ◌<◌, length};
ghost use Rattle.ir_records.specs.Record.{member_words, member_count, member_type, member_offset, type_inner, Sourceless};
ghost use Rattle.ir_records.specs.declared.TypeInner.TheVariants.{Struct};
ghost use Rattle.valid_type_flags.specs.TypeFlags.{leaf_flags};
ghost use Rattle.ir_records.specs.Refusal.{judged};
ghost use Rattle.valid_member_bounds.specs.MemberBounds.{member_bounds, bounds_after};
ghost use Rattle.valid_types.specs.ValidateType.{non_data_flags, flags_of};
ghost use Rattle.place_short_flags.specs.ShortFlags.{short_sizes, short_flags};
ghost use Rattle.place_short_flags.specs.Serving.{taken_result, SourcesKnown, array_by};

use ir_records::{Fault, Kind, Leaf, Members, NonData, TypeInner, TypeRefusal};
use valid_member_bounds::{BoundMember, Bounds};
use valid_type_info::PreviousStruct;

// After all members of a struct; whether one of them may have a blend source.
#[derive(Clone, Copy, Debug, PartialEq, Eq)]
pub struct Taken {
    pub bounds: Bounds,
    pub sourced: bool,
}

/// What flags are judged by: the capability word, the types of an arena, and the three words of each before the one that is judged.
#[derive(Clone, Copy, Debug, PartialEq, Eq)]
pub struct Judging<'a> {
    pub capabilities: u32,
    pub types: &'a [u32],
    pub words: &'a [u32],
}

// Kept: `valid_types` chooses by the kind of a record, and each of its arms makes a layout and an immediates word beside the flags; this one chooses
// by what a record says, for the flags alone.
#[tactic(auto, unfolding(valid_type_flags::specs::TypeFlags::leaf_flags))]
fn leaf_flags(capabilities: u32, leaf: Leaf) -> Result<u32, TypeRefusal>
    ensures { judged result ≡ leaf_flags capabilities leaf }
{
    match leaf {
        Leaf::Scalar(kind, width) => {
            valid_types::numeric_flags(capabilities, Kind::Scalar, kind, width)
        }
        Leaf::Vector(_, kind, width) => {
            valid_types::numeric_flags(capabilities, Kind::Vector, kind, width)
        }
        Leaf::Matrix(_, _, kind, width) => valid_type_flags::matrix_flags(
            capabilities,
            kind,
            width,
        ),
        Leaf::CooperativeMatrix(_, _, kind, width, _) => {
            valid_type_flags::cooperative_flags(capabilities, kind, width)
        }
        Leaf::Atomic(kind, width) => valid_type_flags::atomic_flags(capabilities, kind, width),
        Leaf::RayQuery(vertex_return) => valid_type_flags::ray_query_flags(
            capabilities,
            vertex_return,
        ),
    }
}

// Number 15: an array's base is sized data.
fn array_flags(size: Option<u32>, base: u32) -> Result<u32, TypeRefusal>
    ensures { judged result ≡ array_by size base }
{
    if !valid_flags::is_sized_data(base) {
        return Err(TypeRefusal::of(Fault::InvalidArrayBaseType));
    }
    Ok(valid_flags::flags_over_base(Kind::Array, size, base))
}

impl<'a> Judging<'a> {
    // The flags of an earlier type; none of another.
    fn flags_at(self, t: u32) -> u32
        ensures { result ≡ short_flags self.entry.words.now t }
    {
        place_short_layout::short_word(self.words, t, place_short_layout::FLAGS)
    }

    // A pointer or binding array that names itself or a later type reads empty flags: the words are those of the types before it.
    #[tactic(auto, unfolding(valid_types::specs::ValidateType::non_data_flags))]
    fn non_data_flags(self, o: NonData) -> Result<u32, TypeRefusal>
        ensures { judged result ≡ non_data_flags self.entry.capabilities (type_inner self.entry.types.now) (short_flags self.entry.words.now) o }
    {
        match o {
            NonData::Pointer(base, space) => {
                valid_type_flags::pointer_to(self.flags_at(base), space)
            }
            NonData::ValuePointer(kind, width, space) => {
                valid_type_flags::value_pointer_flags(self.capabilities, kind, width, space)
            }
            NonData::Image(dim, arrayed, class) => {
                valid_type_flags::image_flags(self.capabilities, dim, arrayed, class)
            }
            NonData::Sampler => Ok(valid_flags::starting_flags(Kind::Sampler)),
            NonData::AccelerationStructure(vertex_return) => {
                valid_type_flags::acceleration_flags(self.capabilities, vertex_return)
            }
            NonData::BindingArray(base, form, count) => valid_type_flags::binding_array_of(
                self.types,
                base,
                self.flags_at(base),
                (form == 0).then_some(count),
            ),
        }
    }

    // Member j, after those before it.
    #[tactic(auto, unfolding(valid_member_bounds::specs::MemberBounds::member_bounds))]
    fn member_step(
        self,
        part: Members,
        span: u32,
        j: u32,
        previous: Option<PreviousStruct>,
        so_far: Bounds,
    ) -> Result<Bounds, TypeRefusal>
        requires { j < part.count }
        ensures { judged result ≡ member_bounds part.entry.count span previous (type_inner self.entry.types.now (member_type part.entry.words.now j))
            (member_offset part.entry.words.now j) j (short_sizes self.entry.words.now (member_type part.entry.words.now j))
            (short_flags self.entry.words.now (member_type part.entry.words.now j)) so_far }
    {
        let t = part.type_of(j);
        let offset = part.offset_of(j);
        let distance = valid_type_info::distance_to(previous, offset);
        let member = BoundMember {
            j,
            offset,
            size: place_short_layout::short_word(self.words, t, place_short_layout::SIZE),
            flags: self.flags_at(t),
            array: valid_member_bounds::is_array(self.types, t),
        };
        valid_member_bounds::member_bounds(part.count, span, distance, member, so_far)
    }

    // The members of a struct, one after the other, by the rules that do not read blend sources.
    fn members_of(self, part: Members, span: u32) -> Result<Taken, TypeRefusal>
        ensures result_value { taken_result result ≡
            bounds_after (type_inner self.entry.types.now) (short_sizes self.entry.words.now) (short_flags self.entry.words.now) part.entry.count span
            part.entry.words.now part.entry.count }
        ensures sources_known { SourcesKnown part.entry.words.now result }
    {
        let mut bounds = Bounds {
            end: 0,
            flags: valid_flags::starting_flags(Kind::Struct),
        };
        let mut previous = None;
        let mut sources: u32 = 0;
        for j in 0..part.count {
            bounds = self.member_step(part, span, j, previous, bounds)?;
            previous = valid_member_rules::struct_at(
                self.types,
                part.type_of(j),
                part.offset_of(j),
            );
            sources |= part.source_of(j);
        }
        Ok(Taken {
            bounds,
            sourced: sources != 0,
        })
    }

    // The flags of a struct: number 16, then its members, then its blend sources; those of members before a refused one come first.
    // Kept: beside `valid_structs::members_row`, which carries verdicts between the same steps and writes a row; see there.
    fn struct_flags(self, part: Members, span: u32) -> Result<u32, TypeRefusal>
        ensures { judged result ≡ flags_of self.entry.capabilities (type_inner self.entry.types.now) (short_sizes self.entry.words.now)
            (short_flags self.entry.words.now) (Struct part.entry.count span) part.entry.words.now }
    {
        if part.count == 0 {
            return Err(TypeRefusal::of(Fault::EmptyStruct));
        }
        match self.members_of(part, span) {
            Ok(taken) => valid_blend::blended_flags(
                taken.sourced,
                self.capabilities,
                self.types,
                |t| self.flags_at(t),
                part,
                taken.bounds.flags,
            ),
            Err(refusal) => {
                valid_blend::source_before(true, self.capabilities, part.words, refusal)?;
                Err(refusal)
            }
        }
    }

    // The flags of a type that says `inner`, or its refusal, from the words of the types before it.
    #[tactic(auto, unfolding(valid_types::specs::ValidateType::flags_of))]
    pub fn flags_of(self, inner: TypeInner, part: &[u32]) -> Result<u32, TypeRefusal>
        requires { (count span : ℕ) → inner ≡ Struct count span → length part.now ≡ count * member_words }
        ensures { judged result ≡ flags_of self.entry.capabilities (type_inner self.entry.types.now) (short_sizes self.entry.words.now)
            (short_flags self.entry.words.now) inner part.now }
    {
        match inner {
            TypeInner::Plain(leaf) => leaf_flags(self.capabilities, leaf),
            TypeInner::Array {
                base,
                count,
                stride: _,
            } => array_flags(Some(count), self.flags_at(base)),
            TypeInner::RuntimeArray { base, stride: _ } => array_flags(None, self.flags_at(base)),
            TypeInner::Struct { count, span } => {
                self.struct_flags(Members { words: part, count }, span)
            }
            TypeInner::Other(o) => self.non_data_flags(o),
        }
    }
}
