// What holds of the meaning of arguments.
ghost use Rattle.std.specs.Prelude.{◌≡◌, List};
ghost use Rattle.clap.specs.Words.{Text};
ghost use Rattle.std.specs.List.{AllByRecursion};
ghost use Rattle.command_words.specs.Meaning.{IsInRange, Means};
ghost use Rattle.command_words.specs.Rows.{line, meaningless, meant};
ghost use Rattle.command_words.specs.declared.command.Command.{Command};

/// Arguments mean at most one command.
pub fn one_command()
    ensures { (words : List Text) (a b : Command) → Means words a → Means words b → a ≡ b }
{}

/// A command that arguments mean has 1 to 64 segments, or 0 to 16 workers, or a chunk's number from 0 to 4294967295
/// with a size from 1 to 67108864 and 1 to 64 segments, or two places from 0 to 1099511627775 with 0 to 16 workers,
/// or a seed from 0 to 4294967295 with 1 to 256 columns and 1 to 256 rows.
pub fn numbers_are_in_range()
    ensures { (words : List Text) (command : Command) → Means words command
        → IsInRange command }
{}

/// The meaning of arguments that are written out.
pub fn rows_of_words()
    ensures meant { AllByRecursion (λ row. Means (line row.0) row.1) meant }
    ensures meaningless { AllByRecursion (λ words. (command : Command)
        → ¬ Means (line words) command) meaningless }
{}
