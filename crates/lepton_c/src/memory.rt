// The caller's memory, and how many bytes are taken of it.
ghost use Rattle.std.specs.Prelude.{◌≡◌, ◌<◌, ◌≤◌, length, take};
ghost use Rattle.lepton_c.specs.Gives.{MadeIn, Puts};
ghost use Rattle.lepton_c.specs.declared.answer.Answer.TheVariants.{NoMemory, NoRoom};

use crate::answer::Answer;

/// The most bytes of a file: 64 MiB.
pub(crate) const MOST_OF_A_FILE: usize = 67_108_864;

/// The most bytes of a container: 32 GiB.
pub(crate) const MOST_OF_A_CONTAINER: usize = 34_359_738_368;

/// Copies bytes to the start of a memory.
fn put(given: &[u8], out: &mut [u8])
    requires fits { length given.now ≤ length out.old }
    ensures put { Puts out.old out.new given.now }
{
    let (first, _) = out.split_at_mut(given.len());
    first.copy_from_slice(given);
}

/// Copies what was made if the memory has room for all of it, and else nothing.
pub(crate) fn put_made(made: &[u8], out: &mut [u8]) -> Answer
    ensures { MadeIn out.old out.new made.now result }
{
    let length = made.len() as u64;
    if made.len() > out.len() {
        return Answer::Larger { wanted: length };
    }
    put(made, out);
    Answer::Done { length }
}

/// Copies what is held of an answer, and gives that answer; if the memory has no room for it, as much as there is room
/// for.
pub(crate) fn copy(held: &[u8], out: &mut [u8], answer: Answer) -> Answer
    ensures whole { length held.now ≤ length out.old
        → (result ≡ answer) × Puts out.old out.new held.now }
    ensures part { length out.old < length held.now → (result ≡ NoRoom (length out.old))
        × Puts out.old out.new (take (length out.old) held.now) }
{
    if held.len() > out.len() {
        return fill(held, out);
    }
    put(held, out);
    answer
}

/// Fills the memory with the first bytes of those held, of an answer that has more. There are enough of them unless
/// memory ran out.
pub(crate) fn fill(held: &[u8], out: &mut [u8]) -> Answer
    ensures full { length out.old ≤ length held.now → (result ≡ NoRoom (length out.old))
        × Puts out.old out.new (take (length out.old) held.now) }
    ensures none { length held.now < length out.old → (result ≡ NoMemory) × (out.new ≡ out.old) }
{
    let room = out.len();
    if held.len() < room {
        return Answer::NoMemory;
    }
    let (first, _) = held.split_at(room);
    put(first, out);
    Answer::NoRoom {
        length: room as u64,
    }
}
