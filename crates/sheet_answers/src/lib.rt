// What is printed of the bytes of a file: a WGSL text or a SPIR-V module, read, judged and written out, or its refusal.
#![tactic(auto)]

ghost use Rattle.std.specs.Prelude.{◌≡◌, List, ℕ, true, MatchResult};
ghost use Rattle.std.specs.Io.KnownBytes.{Appends};
ghost use Rattle.sheet_output.specs.Written.{lent};
ghost use Rattle.sheet_answers.specs.Bytes.{made, is_module};
ghost use Rattle.sheet_answers.specs.Judged.{Sent, Judges, WritesStructs};
ghost use Rattle.sheet_answers.specs.Answers.{SaysText, SaysOfText, IsModule, SaysModule, SaysWords, SaysOfModule, Answers};

use ir_records::Refusal;
use program_output::Output;
use sheet_counts::Counts;
use sheet_names::{Module, Sheet};
use sheet_output::Writer;
use sheet_structs::Form;
use std::io::Write;
use valid_type_info::UniformRule;

/// The form, the rule of uniform verdicts and the capability word.
#[derive(Clone, Copy, Debug, PartialEq, Eq)]
pub struct Asked {
    pub form: Form,
    pub rule: UniformRule,
    pub capabilities: u32,
}

// Words of the largest module that is read.
const MOST_WORDS: usize = 262144;

// The words of the records that a reader made in a table.
fn made(table: &[u32], records: u32, record_words: usize) -> &[u32]
    ensures { result.now ≡ made table.now records record_words }
{
    let words = (records as usize).saturating_mul(record_words);
    table.get(..words).unwrap_or(table)
}

// Whether bytes begin as a module does, in either order of a word's bytes.
fn is_module(bytes: &[u8]) -> bool
    ensures { result ≡ is_module bytes.now }
{
    bytes.starts_with(&spirv_read::MAGIC.to_le_bytes())
        | bytes.starts_with(&spirv_read::MAGIC.to_be_bytes())
}

impl Asked {
    // The sheet of records that are accepted.
    fn put_judged<W: Write>(self, out: &mut Writer<W>, records: Sheet) -> Result<(), Refusal>
        ensures judged { Judges self records.entry result }
        ensures written { MatchResult result (λ _. WritesStructs W.contents self records.entry out.old out.new) (λ _. out.new ≡ out.old) }
    {
        let mut counts = Counts::new();
        counts.judge(records, self.capabilities, self.rule)?;
        self.form.put_all(out, counts.sheet(records));
        Ok(())
    }

    // The records of a text.
    fn answer_records<W: Write>(
        self,
        out: &mut Writer<W>,
        text: &[u8],
        types: &[u32],
        members: &[u32],
    )
        ensures { (said : List ℕ) × SaysText self out.old.markup text.now types.now members.now said × Sent W.contents out.old said out.new }
    {
        let names = sheet_names::from_text(text, types);
        let records = Sheet::of(text, &names, types, members);
        if let Err(refusal) = self.put_judged(out, records) {
            sheet_refusals::put_text_arena(out, records, refusal);
        }
    }

    fn answer_text<W: Write>(self, out: &mut Writer<W>, text: &[u8])
        ensures { (said : List ℕ) × SaysOfText self out.old.markup text.now said × Sent W.contents out.old said out.new }
    {
        let mut types = [0; ir_records::TYPE_TABLE];
        let mut members = [0; ir_records::MEMBER_TABLE];
        match wgsl_read::read_at(text, &mut types, &mut members) {
            Ok(records) => self.answer_records(
                out,
                text,
                made(&types, records.types, ir_records::TYPE_WORDS),
                made(&members, records.members, ir_records::MEMBER_WORDS),
            ),
            Err(refusal) => sheet_refusals::put_text(out, text, refusal),
        }
    }

    // The records of a module.
    fn answer_section<W: Write>(self, out: &mut Writer<W>, module: Module, members: &[u32])
        ensures { (words bytes types : List ℕ) → IsModule words bytes types «module».entry
            → (said : List ℕ) × SaysModule self out.old.markup words bytes types members.now said × Sent W.contents out.old said out.new }
    {
        let names = sheet_names::from_module(module);
        let records = Sheet::of(module.bytes, &names, module.types, members);
        if let Err(refusal) = self.put_judged(out, records) {
            let place = ir_records::item_or(module.places, refusal.ty as usize, None);
            sheet_refusals::put_module_arena(out, records, module.words, place, refusal);
        }
    }

    fn answer_words<W: Write>(self, out: &mut Writer<W>, bytes: &[u8], words: &[u32])
        ensures { (said : List ℕ) × SaysWords self out.old.markup words.now bytes.now said × Sent W.contents out.old said out.new }
    {
        let mut types = [0; ir_records::TYPE_TABLE];
        let mut members = [0; ir_records::MEMBER_TABLE];
        match spirv_reader::read_module(words, &mut types, &mut members) {
            Ok(records) => {
                let module = Module {
                    words,
                    bytes,
                    types: made(&types, records.types, ir_records::TYPE_WORDS),
                    places: &sheet_names::type_places(words),
                };
                let members = made(&members, records.members, ir_records::MEMBER_WORDS);
                self.answer_section(out, module, members);
            }
            Err(fault) => sheet_refusals::put_module(out, words, fault),
        }
    }

    fn answer_module<W: Write>(self, out: &mut Writer<W>, bytes: &[u8])
        ensures { (said : List ℕ) × SaysOfModule self out.old.markup bytes.now said × Sent W.contents out.old said out.new }
    {
        let mut words = program_files::filled::<u32, MOST_WORDS>(0);
        if bytes.len() % 4 != 0 {
            program_files::tell(b"sheet: the module is no whole number of words\n");
            return;
        }
        if bytes.len() / 4 <= words.len() {
            let n = spirv_input::append(&mut words, 0, bytes);
            self.answer_words(out, bytes, words.get(..n).unwrap_or(&words));
        }
    }

    /// Prints what is said of the bytes of a file, and answers whether all of it could be written; standard input has no name.
    pub fn answer<W: Write>(self, to: &mut W, name: Option<&[u8]>, bytes: &[u8]) -> bool
        ensures { (answer : List ℕ) × Answers self (lent name.entry) bytes.now answer
            × (result ≡ true → Appends (W.contents to.old) (W.contents to.new) answer) }
    {
        let mut output = Output::new();
        let mut out = Writer::new(&mut output, to, self.form.markup());
        self.form.put_start(&mut out, name);
        if is_module(bytes) {
            self.answer_module(&mut out, bytes);
        } else {
            self.answer_text(&mut out, bytes);
        }
        out.finish()
    }
}
