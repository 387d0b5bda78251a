// The arguments that the program was started with.
use allocation::{NoMemory, push, string_from_str, string_from_utf8_lossy};
use std::alloc::Global;
use std::env::{Env, FillError};

/// What stands for the program's name, which may be no text and which no command depends on.
const PROGRAM: &str = "lepton";

/// The most bytes of an argument that is read as it is. An option with a number has fewer, unless it begins with zeros.
const LONGEST: usize = 64;

/// The arguments, after a name for the program. One that is no text gets U+FFFD in place of each byte that isn't. One
/// of more than 64 bytes is empty, so that it means nothing, even if clap would read it: `--workers=` and 54 zeros
/// before a 4.
pub fn given_arguments<R: Env>(rt: &R, alloc: Global) -> Result<Vec<String>, NoMemory> {
    let mut arguments = Vec::new(alloc);
    push(&mut arguments, string_from_str(alloc, PROGRAM)?)?;
    for number in 1..usize::MAX {
        match argument(rt, alloc, number)? {
            Some(argument) => push(&mut arguments, argument)?,
            None => break,
        }
    }
    Ok(arguments)
}

// The argument of this number, if there is one.
fn argument<R: Env>(rt: &R, alloc: Global, number: usize) -> Result<Option<String>, NoMemory> {
    let mut bytes = [0; LONGEST];
    match rt.arg(number, &mut bytes) {
        Ok(length) => Ok(Some(string_from_utf8_lossy(alloc, &bytes[..length])?)),
        Err(FillError::TooLong) => Ok(Some(String::new(alloc))),
        Err(FillError::NotPresent) => Ok(None),
    }
}
