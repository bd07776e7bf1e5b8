// The verdicts after one member of a struct, of the member loop of validate_type in naga's valid/type.rs.
#![tactic(auto)]

ghost use Rattle.std.specs.Prelude.{◌≡◌, ◌+◌, ◌<◌};
ghost use Rattle.ir_records.specs.Record.{type_inner};
ghost use Rattle.valid_flags.specs.Flags.{bit, host_shareable_bit};
ghost use Rattle.valid_type_info.specs.TypeInfo.{rows_in, verdict_in};
ghost use Rattle.valid_type_info.specs.Verdict.{struct_at, share_verdict, member_verdict};
ghost use Rattle.std.specs.Prelude.{None, Some};
ghost use Rattle.valid_member_rules.specs.MemberRules.{member_storage, member_immediates};
ghost use Rattle.valid_member_rules.specs.Serving.{uniform_by, is_plain};

use ir_records::Kind;
use ir_rows::Earlier;
use valid_type_info::{Distance, MemberAt, PreviousStruct, Verdict};

// The struct that a member of type t is, for the distance of the next one.
pub fn struct_at(types: &[u32], t: u32, offset: u32) -> Option<PreviousStruct>
    ensures { result ≡ struct_at (type_inner types.now t) offset }
{
    if ir_records::is_of_kind(types, t, Kind::Struct) {
        let span = ir_records::type_word(types, t, 3);
        return Some(PreviousStruct { span, offset });
    }
    None
}

// Kept: `m.t < before.i`: StructType gives the fact for each member of its part; a member with the rows beside it would be made in each turn of the loops.
// The verdict so far with that of the type of member m, in words w to w + 4 of its row, read no further than needed.
fn joined_verdict(before: Earlier, m: MemberAt, w: usize, so_far: Verdict) -> Verdict
    requires of_these { m.t < before.i }
    requires in_row { w + 4 < 14 }
    ensures { result ≡ member_verdict m.i m.j m.offset (share_verdict (bit (rows_in before.entry.rows.now m.t).flags host_shareable_bit) m.t so_far)
        (verdict_in before.entry.rows.now m.t w) }
{
    let shareable = valid_flags::is_host_shareable(before.word(m.t, ir_rows::FLAGS));
    let shared = valid_type_info::share_verdict(shareable, m.t, so_far);
    valid_type_rows::member_verdict_at(before.rows, w, m, shared)
}

// The uniform verdict after member m, whose type's row is one of those before.
pub fn uniform_at(least: u32, d: Distance, before: Earlier, m: MemberAt, so_far: Verdict) -> Verdict
    requires { m.t < before.i }
    ensures { result ≡ uniform_by least d m.i m.j m.t m.offset (rows_in before.entry.rows.now m.t) so_far }
{
    let joined = joined_verdict(before, m, ir_rows::UNIFORM, so_far);
    let apart = valid_type_info::after_distance(least, d, m, joined);
    let flags = before.word(m.t, ir_rows::FLAGS);
    valid_type_info::unsized_verdict(valid_flags::is_sized(flags), m, apart)
}

// The storage verdict after member m, whose type's row is one of those before.
pub fn storage_at(before: Earlier, m: MemberAt, so_far: Verdict) -> Verdict
    requires { m.t < before.i }
    ensures { result ≡ member_storage m.i m.j m.t m.offset (rows_in before.entry.rows.now m.t) so_far }
{
    joined_verdict(before, m, ir_rows::STORAGE, so_far)
}

// The last failing member gives the immediates word.
pub fn immediates_of(own: u32, so_far: u32) -> u32
    ensures { result ≡ member_immediates own so_far }
{
    if own == 0 { so_far } else { own }
}

// Whether a member with these flags is plain: data, sized, host-shareable, and resolved at shader creation.
pub fn is_plain(flags: u32) -> bool
    ensures { result ≡ is_plain flags }
{
    valid_flags::is_data(flags)
        & valid_flags::is_sized(flags)
        & valid_flags::is_host_shareable(flags)
        & valid_flags::is_creation_resolved(flags)
}

// Wider than both, so that the sum does not wrap.
pub fn end_of(offset: u32, size: u32) -> u64
    ensures { result ≡ offset + size }
{
    (offset as u64) + (size as u64)
}
