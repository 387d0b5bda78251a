// A container in the version that is written, and in that which keeps places.
ghost use Rattle.std.specs.Prelude.{◌≡◌};
ghost use Rattle.lepton_c.specs.Gives.{IndexGives, MigrateGives};
ghost use Rattle.lepton_c.specs.Numbers.{numbers_of};
ghost use Rattle.lepton_c.specs.declared.answer.Answer.{Answer};

use crate::answer::Answer;
use crate::memory::{MOST_OF_A_CONTAINER, put_made};
use crate::numbers::{LeptonEnding, numbers};
use box_format::Migrate;
use range_read::{IndexError, index_alone};
use std::alloc::Global;

/// The same container in version 2, if it is of version 1 or 2.
#[unsafe(no_mangle)]
pub extern "C" fn lepton_migrate(
    alloc: Global,
    bytes: &[u8],
    out: &mut [u8],
    ending: &mut LeptonEnding,
) -> u8
    ensures answer { (answer : Answer) × MigrateGives bytes.now out.old out.new answer
        × (ending.new ≡ numbers_of answer) }
    ensures status { result ≡ ending.new.status }
{
    let answer = migrate(alloc, bytes, out);
    *ending = numbers(answer);
    ending.status
}

fn migrate(alloc: Global, bytes: &[u8], out: &mut [u8]) -> Answer
    ensures { MigrateGives bytes.now out.old out.new result }
{
    if bytes.len() > MOST_OF_A_CONTAINER {
        return Answer::TooLong;
    }
    match box_format::migrate(alloc, bytes) {
        Ok(made) => put_made(made.as_slice(), out),
        Err(Migrate::Box(refusal)) => Answer::Box(refusal),
        Err(Migrate::NoMemory(_)) => Answer::NoMemory,
    }
}

/// The same container in version 5, which keeps the places of its segments, if it is of version 1, 2 or 5 and stands
/// for a file.
#[unsafe(no_mangle)]
pub extern "C" fn lepton_index(
    alloc: Global,
    bytes: &[u8],
    out: &mut [u8],
    ending: &mut LeptonEnding,
) -> u8
    ensures answer { (answer : Answer) × IndexGives bytes.now out.old out.new answer
        × (ending.new ≡ numbers_of answer) }
    ensures status { result ≡ ending.new.status }
{
    let answer = index(alloc, bytes, out);
    *ending = numbers(answer);
    ending.status
}

fn index(alloc: Global, bytes: &[u8], out: &mut [u8]) -> Answer
    ensures { IndexGives bytes.now out.old out.new result }
{
    if bytes.len() > MOST_OF_A_CONTAINER {
        return Answer::TooLong;
    }
    match index_alone(alloc, bytes) {
        Ok(made) => put_made(made.as_slice(), out),
        Err(IndexError::Box(refusal)) => Answer::Box(refusal),
        Err(IndexError::Fault(fault)) => Answer::Fault { fault, length: 0 },
        Err(IndexError::PadSpelling) => Answer::PadSpelling { length: 0 },
        Err(IndexError::NoMemory(_)) => Answer::NoMemory,
    }
}
