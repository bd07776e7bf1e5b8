// The arguments that a program was started with; argument 0 is its own name.
ghost use Rattle.std.specs.Prelude.{◌≤◌, length, IfSome};

use std::env::FillError;
use std::rt::Env;

/// Argument i, which is put at the start of the word; none where it is missing or longer than the word.
pub fn argument<'a, R: Env>(rt: &R, i: usize, word: &'a mut [u8]) -> Option<&'a [u8]>
    ensures { IfSome result (λ argument. length argument.now ≤ length word.old) }
{
    let length = rt.arg(i, word).ok()?;
    Some(&word[..length])
}

fn is_there<R: Env>(rt: &R, i: usize) -> bool {
    let mut word = [0u8; 1];
    !matches!(rt.arg(i, &mut word), Err(FillError::NotPresent))
}

/// How many arguments there are.
pub fn argument_count<R: Env>(rt: &R) -> usize {
    (0..usize::MAX)
        .find(|i| !is_there(rt, *i))
        .unwrap_or(usize::MAX)
}
