// Bytes that were made whole, written.
ghost use Rattle.std.specs.Prelude.{◌≡◌, ◌⊎◌, ◌≤◌, ℕ, List};
ghost use Rattle.command_words.specs.declared.command.Command.{Command};
ghost use Rattle.lepton_run.specs.Answers.{Answers, Made};
ghost use Rattle.lepton_run.specs.CommandEnds.{CarriedOut};
ghost use Rattle.lepton_run.specs.declared.ending.Ending.TheVariants.{Done, WriteFailed};

use crate::ending::Ending;
use outside_core::{Sink, write_all};

/// Writes bytes, and how the command ends whose answer they are.
pub(crate) fn write_made<K: Sink>(made: &[u8], sink: &mut K) -> Ending
    requires takes { K.takes sink.old made.now }
    ensures ending { (command : Command) (bytes : List ℕ) → Answers command bytes (Made made.now)
        → CarriedOut K.held K.faults K.full command bytes sink.old sink.new result }
    ensures ends { (result ≡ Done) ⊎ (result ≡ WriteFailed) }
    ensures lasting { K.faults sink.old ≤ K.faults sink.new }
{
    match write_all(sink, made) {
        Ok(()) => Ending::Done,
        Err(_) => Ending::WriteFailed,
    }
}
