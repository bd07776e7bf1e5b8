// The records of an arena as lines that `inspect` takes.
#![tactic(auto)]

ghost use Rattle.std.specs.Prelude.{◌≤◌};
ghost use Rattle.program_output.specs.Bytes.{Adds, joined};
ghost use Rattle.program_record_lines.specs.Lines.{record_line, record_lines};

use ir_records::Records;
use program_output::Output;

// Record i of WIDTH words: the head and the record's first SHOWN words, where they are there.
#[tactic(auto, unfolding(crate::specs::Lines::record_line))]
fn put_record<const WIDTH: usize, const SHOWN: usize>(
    out: &mut Output,
    head: &[u8],
    words: &[u32],
    i: u32,
)
    requires { (WIDTH ≤ 6) × (SHOWN ≤ 6) }
    ensures { Adds out.old (record_line head.now WIDTH SHOWN words.now i) out.new }
{
    let first = (i as usize) * WIDTH;
    let last = first + SHOWN;
    if last <= words.len() {
        out.put_words(head, &words[first..last]);
    }
}

// A line for each of the first n records; one that is not there has no line.
// Kept: `words.chunks(WIDTH).take(n)` would give the same lines. The contract speaks of records by their numbers, as the readers do, and a law of its own
// would have to tie these to the chunks.
fn put_lines<const WIDTH: usize, const SHOWN: usize>(
    out: &mut Output,
    head: &[u8],
    words: &[u32],
    n: u32,
)
    requires { (WIDTH ≤ 6) × (SHOWN ≤ 6) }
    ensures { Adds out.old (joined (record_line head.now WIDTH SHOWN words.now) n) out.new }
{
    for i in 0..n {
        put_record::<WIDTH, SHOWN>(out, head, words, i);
    }
}

/// The first type records, then the first member records, as many of each as were read. A member's line has its type and its offset: there is no
/// location and no blend source.
pub fn put_records(out: &mut Output, types: &[u32], members: &[u32], read: Records)
    ensures { Adds out.old (record_lines types.now read.types members.now read.members) out.new }
{
    put_lines::<{ ir_records::TYPE_WORDS }, { ir_records::TYPE_WORDS }>(
        out, b"type", types, read.types,
    );
    put_lines::<{ ir_records::MEMBER_WORDS }, 2>(out, b"member", members, read.members);
}
