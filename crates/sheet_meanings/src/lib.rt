// Refusals, capabilities and instructions in words.
#![tactic(auto)]

ghost use Rattle.std.specs.Prelude.{◌≡◌, ◌++◌, slice_get};
ghost use Rattle.program_output.specs.Bytes.{newline};
ghost use Rattle.sheet_output.specs.Written.{Writes, lent};
ghost use Rattle.sheet_meanings.specs.Meanings.{meaning, fault_text, capabilities, capability_text, type_instruction, instruction_text};

use ir_records::Fault;
use sheet_output::Writer;
use std::io::Write;

// What a fault means; none for those of orders and passes, of which there are no sheets.
#[tactic(auto, unfolding(crate::specs::Meanings::meaning))]
fn meaning(fault: Fault) -> Option<&'static [u8]>
    ensures { lent result ≡ meaning fault }
{
    let text: &'static [u8] = match fault {
        Fault::TableLength =>
            b"there are more than 1024 types or 4096 members, or the capability word has a bit above 13",
        Fault::FieldOutside => b"a field of a record lies outside its set",
        Fault::BaseOutside => b"a pointer or binding array has a base that is no type",
        Fault::TooLarge => b"an array has more than 2147483647 elements or bytes",
        Fault::InvalidArrayElementType => b"an array's element is no earlier type",
        Fault::InvalidStructMemberType => b"a struct's member is no earlier type",
        Fault::NonPowerOfTwoWidth => b"a scalar's width is no power of two",
        Fault::MissingCapability => b"a capability is missing",
        Fault::InvalidWidth => b"a scalar has a width that its kind may not have",
        Fault::AbstractScalar => b"a scalar is abstract",
        Fault::MatrixElementNotFloat => b"a matrix has elements that are no floats",
        Fault::InvalidAtomicWidth =>
            b"an atomic has a scalar kind and width that no atomic may have",
        Fault::InvalidPointerBase => b"a pointer's base is no data",
        Fault::InvalidPointerToUnsized =>
            b"a pointer to an unsized type stands in another address space than storage",
        Fault::InvalidArrayBaseType => b"an array's element is a type that cannot be an element",
        Fault::EmptyStruct => b"a struct has no members",
        Fault::InvalidData => b"a member is no data",
        Fault::MemberOverlap => b"a member overlaps the one before",
        Fault::MemberOutOfBounds => b"a member ends past the struct's size",
        Fault::InvalidDynamicArray => b"a runtime-sized array is not the last member",
        Fault::StructSum => b"a struct's sum or difference leaves 32 bits",
        Fault::UnsupportedImageType =>
            b"an image is arrayed and 3D, or external and arrayed or not 2D",
        Fault::BindingArrayBaseTypeNotStruct => b"a binding array's base is data and no struct",
        Fault::BindingArrayBaseExternalTextures => b"a binding array's base is an external image",
        Fault::PastImmediates => b"a part ends past byte 256",
        Fault::NoSuchType => b"there is no such type or place",
        Fault::NarrowStride =>
            b"a host-shareable struct reaches an array with a stride below its element's size",
        Fault::ModuleHeader =>
            b"the module's header is short or has another magic number, or a word count is 0, past the end or too small",
        Fault::ModuleType =>
            b"the module refers to a type that is not read, has a width, signedness, encoding or number of parts that is not supported, or stores a matrix otherwise",
        Fault::ModuleOrder =>
            b"an id of the module is missing, given twice or of the wrong sort, a size leaves 32 bits, or an Offset, an ArrayStride or an array's length is not in order",
        Fault::Grammar =>
            b"the text is not what is read: struct declarations and semicolons, with types at most 32 deep",
        Fault::Name =>
            b"a type's name is unknown or repeated, or a member's name is repeated in its struct",
        Fault::Attribute =>
            b"an attribute is one that WGSL forbids, an array's count is 0, or a number or a placement is above 4294967295",
        Fault::InvalidBlendSrc => b"the blend sources of a struct's members are refused",
        Fault::NoOrder | Fault::Dispatch | Fault::PassRange => return None,
    };
    Some(text)
}

// The bits of the capability word, from 0 on.
const CAPABILITIES: [&[u8]; 14] = [
    b"FLOAT64, --capabilities 1",
    b"SHADER_FLOAT16, --capabilities 2",
    b"SHADER_INT16, --capabilities 4",
    b"SHADER_INT64, --capabilities 8",
    b"SHADER_FLOAT32_ATOMIC, --capabilities 16",
    b"SHADER_INT64_ATOMIC_MIN_MAX, --capabilities 32",
    b"SHADER_INT64_ATOMIC_ALL_OPS, --capabilities 64",
    b"COOPERATIVE_MATRIX, --capabilities 128",
    b"CUBE_ARRAY_TEXTURES, --capabilities 256",
    b"TEXTURE_EXTERNAL, --capabilities 512",
    b"RAY_QUERY, --capabilities 1024",
    b"RAY_TRACING_PIPELINE, --capabilities 2048",
    b"RAY_HIT_VERTEX_POSITION, --capabilities 4096",
    b"DUAL_SOURCE_BLENDING, --capabilities 8192",
];

// What a bit of the capability word stands for.
#[tactic(auto, unfolding(crate::specs::Meanings::capabilities))]
fn capability(bit: u32) -> Option<&'static [u8]>
    ensures { lent result ≡ slice_get capabilities bit }
{
    CAPABILITIES.get(bit as usize).copied()
}

// A text and the end of its line.
fn put_line<W: Write>(out: &mut Writer<W>, text: &[u8])
    ensures { Writes W.contents out.old (text.now ++ newline) out.new }
{
    out.put_text(text);
    out.put_byte(b'\n');
}

// The capability of a bit, where it has one.
pub fn put_capability<W: Write>(out: &mut Writer<W>, bit: u32)
    ensures { Writes W.contents out.old (capability_text bit) out.new }
{
    if let Some(text) = capability(bit) {
        put_line(out, text);
    }
}

// The types among the instructions, from OpTypeVoid on.
const TYPE_INSTRUCTIONS: [&[u8]; 20] = [
    b"OpTypeVoid",
    b"OpTypeBool",
    b"OpTypeInt",
    b"OpTypeFloat",
    b"OpTypeVector",
    b"OpTypeMatrix",
    b"OpTypeImage",
    b"OpTypeSampler",
    b"OpTypeSampledImage",
    b"OpTypeArray",
    b"OpTypeRuntimeArray",
    b"OpTypeStruct",
    b"OpTypeOpaque",
    b"OpTypePointer",
    b"OpTypeFunction",
    b"OpTypeEvent",
    b"OpTypeDeviceEvent",
    b"OpTypeReserveId",
    b"OpTypeQueue",
    b"OpTypePipe",
];

// A type among the instructions.
#[tactic(auto, unfolding(crate::specs::Meanings::type_instructions))]
fn type_instruction(op: u32) -> Option<&'static [u8]>
    ensures { lent result ≡ type_instruction op }
{
    let i = op.checked_sub(spirv_words::TYPE_VOID)?;
    TYPE_INSTRUCTIONS.get(i as usize).copied()
}

// An instruction by its opcode.
pub fn put_instruction<W: Write>(out: &mut Writer<W>, op: u32)
    ensures { Writes W.contents out.old (instruction_text op) out.new }
{
    match op {
        spirv_words::CONSTANT => put_line(out, b"OpConstant"),
        spirv_words::DECORATE => put_line(out, b"OpDecorate"),
        spirv_words::MEMBER_DECORATE => put_line(out, b"OpMemberDecorate"),
        _ => match type_instruction(op) {
            Some(name) => put_line(out, name),
            None => out.put_with(b"opcode ", u64::from(op), b"\n"),
        },
    }
}

// The number of a fault and its meaning.
pub fn put_fault<W: Write>(out: &mut Writer<W>, fault: Fault)
    ensures { Writes W.contents out.old (fault_text fault) out.new }
{
    out.put_with(b"refused ", u64::from(u32::from(fault)), b": ");
    if let Some(text) = meaning(fault) {
        put_line(out, text);
    }
}
