// The program `sheet`: its arguments, the files that they name, and what is printed of each.
#![tactic(auto)]

ghost use Rattle.std.specs.Prelude.{◌≡◌, true, IfSome, nat_eq};
ghost use Rattle.std.specs.Cmp.Lexicographic.{pointwise};
ghost use Rattle.program_output.specs.Bytes.{ascii};
ghost use Rattle.sheet_output.specs.Written.{lent};
ghost use Rattle.sheet_program.specs.Printed.{Printed};
ghost use Rattle.sheet_program.specs.Options.{form_of, valued_of, option_of, argument_of, rule_of, no_options, with_value};
ghost use Rattle.sheet_program.specs.Stop.{stop_of};

use program_files::Messages;
use program_input::STDOUT;
use program_output::Standard;
use program_words::NumberError;
use sheet_answers::Asked;
use sheet_structs::Form;
use std::io::{Read, Write};
use std::rt::{Env, Files};
use valid_type_info::UniformRule;

// What the arguments say so far: what is asked of a file, the option whose value comes next, whether an option has no file after it yet, and whether a
// file was named.
#[derive(Clone, Copy, Debug, PartialEq, Eq)]
struct Options {
    asked: Asked,
    waits: Option<Valued>,
    open: bool,
    files: bool,
}

// An option that takes the next argument.
#[derive(Clone, Copy, Debug, PartialEq, Eq)]
enum Valued {
    Rule,
    Capabilities,
}

// What an argument is: a form, an option that takes the next argument, a file, or one of no such kind.
#[derive(Clone, Copy, Debug, PartialEq, Eq)]
enum Argument {
    OfForm(Form),
    WithValue(Valued),
    File,
    Help,
    NoOption,
}

// Why nothing more is answered.
#[derive(Clone, Copy, Debug, PartialEq, Eq)]
enum Stop {
    Help,
    NoOption,
    NoRule,
    NotANumber,
    TooLarge,
}

impl From<NumberError> for Stop {
    ghost from_gives = { λ error result. result ≡ stop_of error };

    fn from(error: NumberError) -> Stop {
        match error {
            NumberError::NotANumber => Stop::NotANumber,
            NumberError::TooLarge => Stop::TooLarge,
        }
    }
}

const UNREAD: Messages = Messages {
    long: b"sheet: the input is longer than 1048576 bytes\n",
    failed: b"sheet: the input cannot be read\n",
};

// Prints the sheet of the file that the input is, and tells whether all of the input was read and the sheet could be written.
fn answer_open<S: Read, W: Write>(
    asked: Asked,
    to: &mut W,
    name: Option<&[u8]>,
    source: &mut S,
) -> bool
    ensures { result ≡ true
        → IfSome (S.remaining source.old) (λ input. Printed asked (lent name.entry) input (W.contents to.old) (W.contents to.new)) }
{
    let mut bytes = program_files::filled::<u8, { program_files::INPUT_BYTES }>(0);
    match program_files::read_text(source, &mut bytes, UNREAD) {
        Some(text) => asked.answer(to, name, text),
        None => false,
    }
}

// What is wrong with an argument.
fn tell_of(argument: &[u8], what: &[u8]) {
    program_files::tell(b"sheet: ");
    program_files::tell(argument);
    program_files::tell(what);
}

fn answer_file<R: Files>(rt: &R, asked: Asked, name: &[u8]) {
    match program_files::open(rt, name) {
        Some(mut file) => {
            // That it could not be written has been told.
            let _ = answer_open(asked, &mut Standard, Some(name), &mut file);
        }
        None => tell_of(name, b": the file cannot be opened\n"),
    }
}

fn put_help() {
    io::write_all(
        STDOUT,
        b"sheet [OPTIONS] [FILE..]  prints the buffer layout of each struct of a WGSL text or a SPIR-V module.
Without a file it reads standard input. Options hold for the files after them.
  --c                 a C header, with an assertion for every offset and size
  --rust              Rust structs and constants, with the same assertions
  --html              a page with a picture of the bytes of each struct
  --text              a text again
  --rule older|newer  the rule of uniform buffers, at first the older
  --capabilities N    the capability word, at first 0; 2 allows f16, 1 f64, 8 i64 and u64
  --help              this
A text holds struct declarations and semicolons. At most 1048576 bytes, 1024 types and 4096 members are read.
A refusal is one line `refused NUMBER: ` with its meaning, and then where it stands.
",
    );
}

// The form of that name.
#[tactic(auto, unfolding(crate::specs::Options::form_of))]
fn form_of(name: &[u8]) -> Option<Form>
    ensures { result ≡ form_of name.now }
{
    match name {
        b"c" => Some(Form::C),
        b"rust" => Some(Form::Rust),
        b"html" => Some(Form::Page),
        b"text" => Some(Form::Text),
        _ => None,
    }
}

// Whether a name is that of the capability word.
// Kept: by `==` and no arm of a match: of a name of twelve bytes in an arm the check looks at each byte, and does not end within its limits.
fn is_capabilities(name: &[u8]) -> bool
    ensures { result ≡ pointwise nat_eq name.now (ascii "capabilities") }
{
    name == b"capabilities".as_slice()
}

// The option of that name that takes the next argument.
#[tactic(auto, unfolding(crate::specs::Options::valued_of))]
fn valued_of(name: &[u8]) -> Option<Valued>
    ensures { result ≡ valued_of name.now }
{
    match name {
        b"rule" => Some(Valued::Rule),
        _ => is_capabilities(name).then_some(Valued::Capabilities),
    }
}

// The option of that name, without the two marks before it.
fn option_of(name: &[u8]) -> Argument
    ensures { result ≡ option_of name.now }
{
    if let Some(form) = form_of(name) {
        return Argument::OfForm(form);
    }
    if let Some(option) = valued_of(name) {
        return Argument::WithValue(option);
    }
    if name == b"help".as_slice() {
        return Argument::Help;
    }
    Argument::NoOption
}

// What an argument is by its name.
fn argument_of(word: &[u8]) -> Argument
    ensures { result ≡ argument_of word.now }
{
    if let Some(name) = word.strip_prefix(b"--") {
        return option_of(name);
    }
    match word {
        [b'-', ..] => Argument::NoOption,
        _ => Argument::File,
    }
}

// The rule of that name.
#[tactic(auto, unfolding(crate::specs::Options::rule_of))]
fn rule_of(name: &[u8]) -> Option<UniformRule>
    ensures { result ≡ rule_of name.now }
{
    match name {
        b"older" => Some(UniformRule::Older),
        b"newer" => Some(UniformRule::Newer),
        _ => None,
    }
}

impl Options {
    // What is asked before any argument.
    fn new() -> Options
        ensures { result ≡ no_options }
    {
        Options {
            asked: Asked {
                form: Form::Text,
                rule: UniformRule::Older,
                capabilities: 0,
            },
            waits: None,
            open: false,
            files: false,
        }
    }

    // After the value of an option.
    fn with_value(self, option: Valued, value: &[u8]) -> Result<Options, Stop>
        ensures { result ≡ with_value self option value.now }
    {
        let asked = match option {
            Valued::Rule => Asked {
                rule: rule_of(value).ok_or(Stop::NoRule)?,
                ..self.asked
            },
            Valued::Capabilities => Asked {
                capabilities: program_words::number_of(value)?,
                ..self.asked
            },
        };
        Ok(Options {
            asked,
            waits: None,
            ..self
        })
    }

    // After an argument that is no value of an option. A file is answered.
    fn with_argument<R: Files>(self, rt: &R, word: &[u8]) -> Result<Options, Stop> {
        match argument_of(word) {
            Argument::OfForm(form) => Ok(Options {
                asked: Asked { form, ..self.asked },
                open: true,
                ..self
            }),
            Argument::WithValue(option) => Ok(Options {
                waits: Some(option),
                open: true,
                ..self
            }),
            Argument::File => {
                answer_file(rt, self.asked, word);
                Ok(Options {
                    open: false,
                    files: true,
                    ..self
                })
            }
            Argument::Help => Err(Stop::Help),
            Argument::NoOption => Err(Stop::NoOption),
        }
    }

    // After the next argument.
    fn with<R: Files>(self, rt: &R, word: &[u8]) -> Result<Options, Stop> {
        match self.waits {
            Some(option) => self.with_value(option, word),
            None => self.with_argument(rt, word),
        }
    }

    // After the last argument: standard input where no file was named; an option that no file follows is told.
    fn finish<R: Input>(self, rt: &R) -> Result<(), Stop> {
        if let Some(option) = self.waits {
            self.with_value(option, b"")?;
        }
        if !self.files {
            let _ = answer_open(self.asked, &mut Standard, None, &mut rt.reader());
        } else if self.open {
            program_files::tell(
                b"sheet: an option stands after the last file; options hold for the files after them\n",
            );
        }
        Ok(())
    }
}

// Why nothing more is answered after an argument.
fn tell_stop(argument: &[u8], stop: Stop) {
    match stop {
        Stop::Help => put_help(),
        Stop::NoOption => tell_of(argument, b": no such option; see --help\n"),
        Stop::NoRule => program_files::tell(b"sheet: --rule takes older or newer\n"),
        Stop::NotANumber => {
            program_files::tell(b"sheet: --capabilities takes a decimal number\n")
        }
        Stop::TooLarge => program_files::tell(
            b"sheet: --capabilities takes a number of at most 4294967295\n",
        ),
    }
}

pub fn run<R: Env + Files + Input>(rt: &R) {
    let mut options = Options::new();
    let mut buffer = io::buffer();
    for i in 1..program_files::argument_count(rt) {
        // An argument that is longer than any path names no file.
        let word = program_files::argument(rt, i, &mut buffer).unwrap_or(b"");
        match options.with(rt, word) {
            Ok(next) => options = next,
            Err(stop) => {
                tell_stop(word, stop);
                return;
            }
        }
    }
    if let Err(stop) = options.finish(rt) {
        tell_stop(b"", stop);
    }
}
