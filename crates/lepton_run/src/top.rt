// The top call.
ghost use Rattle.std.specs.Prelude.{◌≡◌, ◌≢◌, ◌⊎◌, ◌+◌, ◌<◌, ◌≤◌, ℕ, List, Some, String, string_bytes, map, length, sum, [], ◌∷◌};
ghost use Rattle.std.specs.List.{AllByRecursion};
ghost use Rattle.std.specs.Io.KnownBytes.{Appends};
ghost use Rattle.outside_core.specs.Faults.{Rose};
ghost use Rattle.outside_core.specs.Takes.{TakesAll};
ghost use Rattle.jpeg_marker.specs.Plans.{PlanFields};
ghost use Rattle.scan_spec.specs.FileParts.{FileScan, IsFile};
ghost use Rattle.container_spec.specs.ScansFiles.{IsContainerOf, IsContainerOfFile};
ghost use Rattle.container_spec.specs.Meanings.{Meaning, Restored};
ghost use Rattle.container_spec.specs.Portions.{StandsFor};
ghost use Rattle.byte_window.specs.Slices.{slice};
ghost use Rattle.box_format.specs.Parts.{BoxParts, migrated};
ghost use Rattle.box_format.specs.Single.{IsBoxOf, box_bytes};
ghost use Rattle.box_format.specs.Versions.{IsRead, indexable, layout_of, migratable, version_in};
ghost use Rattle.box_format.specs.declared.version.Version.{Version};
ghost use Rattle.box_format.specs.declared.version.Version.TheVariants.{Fifth, Third};
ghost use Rattle.container_spec.specs.Chunks.{IsChunkOf, chunk_of};
ghost use Rattle.command_words.specs.Meaning.{IsInRange, Means};
ghost use Rattle.command_words.specs.declared.command.Command.{Command};
ghost use Rattle.command_words.specs.declared.command.Command.TheVariants.{Encode, Decode, Migrate, Index, Range, Sample};
ghost use Rattle.lepton_run.specs.Answers.{Answer, Answers, AppendsPart, IsInput, Made, MayTake, TakenWithin, TakesAnswers, Took, Writes, bytes_of, limit_of, line_of};
ghost use Rattle.lepton_run.specs.Endings.{Notes, ending_line, ending_of, line_at, status_at};
ghost use Rattle.lepton_run.specs.CommandEnds.{Answered, SampleEnds, Transferred};

use crate::commands::carry_out;
use crate::ending::Ending;
use crate::input::{limit, reads};
use crate::refusal::Refusal;
use allocation::NoMemory;
use command_words::{Command, WordsError, command_of};
use outside_core::{Gate, ReadAll, Sink, Source, read_all, write_all};
use std::alloc::Global;
use std::sync::Wait;
use std::thread::Threads;

/// Carries out the command that the arguments mean (`words`, the first of which is the program's name), and returns how
/// it ended, which the program's status says (`Ending::status`). `note` is stderr: it gets nothing, or one line.
///
/// | status | if | line |
/// |---|---|---|
/// | 0 | the container of the file or chunk, the file, chunk or range, or a sample's five lines were written | none |
/// | 1 | the bytes are refused | (a) |
/// | 2 | the arguments mean no command | `lepton: words refused` |
/// | 3 | the source failed | `lepton: read failed` |
/// | 4 | the sink failed | `lepton: write failed` |
/// | 5 | out of memory | `lepton: no memory` |
///
/// (a) `lepton: refused `, the refusal's number and name, and the code, the place or the segment that it holds. Of
/// `decode` and `range` with 40 to 45 and 48 what is before the fault was written; of `decode` with 46 the whole file,
/// and with 47 what there is of the chunk before its trailer; else nothing.
///
/// The commands are `encode` with `--segments`, `decode` with `--workers`, `migrate`, `chunk` with `--index`, `--size`
/// and `--segments`, `index`, `range` with `--from`, `--to` and `--workers`, or `sample` with `--seed`, `--columns` and
/// `--rows`, as `command_words` has them. `encode` accepts each file that docs/JPEG.md accepts, up to 64 MiB
/// (`accepted`). The whole source is read before anything is written. Once the first byte is written, no memory is
/// asked for but what a new thread is handed. `sample` reads nothing. The segments of a file are coded, and those of a
/// container decoded, in other threads too if these are worth it and can be had. A failure of `note` changes no status.
#[inline(never)]
pub fn run<R: Threads + Wait + Sync, S: Source, K: Sink + Send, N: Sink + Send, G: Gate + Sync>(
    rt: &R,
    alloc: Global,
    words: &[String],
    source: &mut S,
    sink: &mut K,
    note: &mut N,
    gate: &G,
) -> Ending
    // The sink need take nothing but the answer to the bytes that the source may give. So at each moment, also of a
    // call that never returns, what was written is a prefix of it.
    requires takes { (command : Command) (bytes : List ℕ) → Means (map string_bytes words.now) command
        → MayTake command (S.left source.old) bytes
        → TakesAnswers K.takes command bytes sink.old }
    requires readable { S.readable source.old }
    requires notes { TakesAll N.takes note.old }

    ensures statuses { status_at result ≤ 5 }

    // 0 and 1: the answer to the command and the bytes: exactly its bytes are appended, and its line is noted.
    ensures answered { status_at result ≤ 1
        → ((command : Command) × (bytes : List ℕ) × (answer : Answer)
        × Means (map string_bytes words.now) command
        × Took command (S.left source.old) (S.left source.new) bytes
        × Answers command bytes answer × (result ≡ ending_of answer)
        × Appends (K.held sink.old) (K.held sink.new) (bytes_of answer)
        × (¬ Writes answer → sink.new ≡ sink.old)
        × Notes N.held N.faults N.full note.old note.new (line_of answer)) }

    // 4: a proper prefix of the answer's bytes is appended.
    ensures cut { status_at result ≡ 4 → ((command : Command) × (bytes : List ℕ) × (answer : Answer)
        × Means (map string_bytes words.now) command
        × Took command (S.left source.old) (S.left source.new) bytes
        × Answers command bytes answer × Writes answer
        × AppendsPart (K.held sink.old) (K.held sink.new) (bytes_of answer)) }

    // 2, 3 and 5: nothing is written.
    ensures untouched { 1 < status_at result → status_at result ≢ 4 → sink.new ≡ sink.old }

    // 2: exactly if the arguments mean no command, unless memory ran out; nothing is read if they mean none.
    ensures words { status_at result ≡ 2
        → (command : Command) → ¬ Means (map string_bytes words.now) command }
    ensures meaningless { ((command : Command) → ¬ Means (map string_bytes words.now) command)
        → (status_at result ≡ 2) ⊎ (status_at result ≡ 5) }
    ensures unread { ((command : Command) → ¬ Means (map string_bytes words.now) command)
        → source.new ≡ source.old }

    // In any case, the source gave at most one byte past the command's limit.
    ensures taken { (command : Command) → Means (map string_bytes words.now) command
        → TakenWithin (limit_of command + 1) (S.left source.old) (S.left source.new) }

    // 3 and 4: only if the count of faults of that source or sink rose in this call, or is at its last value.
    ensures read_failed { status_at result ≡ 3 → Rose S.faults S.full source.old source.new }
    ensures write_failed { status_at result ≡ 4 → Rose K.faults K.full sink.old sink.new }

    // On every other status that source or sink didn't fail.
    ensures source_unfailed { status_at result ≢ 3 → S.faults source.new ≡ S.faults source.old }
    ensures sink_unfailed { status_at result ≢ 4 → K.faults sink.new ≡ K.faults sink.old }

    // The note of the statuses 2 to 5.
    ensures said { 1 < status_at result
        → Notes N.held N.faults N.full note.old note.new (line_at (status_at result)) }

    // Completeness: what is the answer to the bytes is given, unless the source or the sink failed or memory ran out.
    ensures complete { (command : Command) (bytes : List ℕ) (answer : Answer)
        → Means (map string_bytes words.now) command
        → ¬ Rose S.faults S.full source.old source.new
        → (Writes answer → ¬ Rose K.faults K.full sink.old sink.new)
        → IsInput command (S.left source.old) bytes → Answers command bytes answer
        → ((result ≡ ending_of answer) × Appends (K.held sink.old) (K.held sink.new) (bytes_of answer)
        × Notes N.held N.faults N.full note.old note.new (line_of answer))
        ⊎ (status_at result ≡ 5) }

    // Bytes of which nothing is made are refused, unless the source or the sink failed or memory ran out.
    ensures outside { (command : Command) (bytes : List ℕ)
        → Means (map string_bytes words.now) command
        → ¬ Rose S.faults S.full source.old source.new → ¬ Rose K.faults K.full sink.old sink.new
        → IsInput command (S.left source.old) bytes
        → ((made : List ℕ) → ¬ Answers command bytes (Made made))
        → (status_at result ≡ 1) ⊎ (status_at result ≡ 5) }

    // A file that docs/JPEG.md accepts is encoded: exactly its container is appended.
    ensures accepted { (most : ℕ) (file : List ℕ) (scans : List FileScan) (trailer : List ℕ)
        → Means (map string_bytes words.now) (Encode most)
        → ¬ Rose S.faults S.full source.old source.new → ¬ Rose K.faults K.full sink.old sink.new
        → S.left source.old ≡ Some file → length file ≤ limit_of (Encode most)
        → IsFile file scans trailer
        → ((status_at result ≡ 0) × (made : List ℕ) × IsContainerOfFile most made file
        × Appends (K.held sink.old) (K.held sink.new) made)
        ⊎ (status_at result ≡ 5) }

    // What was encoded is decoded: of the container of a file within the limit, in a version that can say its pad bits,
    // with any number of segments in each scan, exactly that file is appended.
    ensures back { (version : Version) (workers most : ℕ) (mosts bytes file : List ℕ)
        → Means (map string_bytes words.now) (Decode workers)
        → ¬ Rose S.faults S.full source.old source.new → ¬ Rose K.faults K.full sink.old sink.new
        → S.left source.old ≡ Some bytes → length file ≤ limit_of (Encode most)
        → AllByRecursion (λ some. 0 < some) mosts → sum mosts ≤ (layout_of version).most
        → IsContainerOf version mosts bytes file
        → ((status_at result ≡ 0) × Appends (K.held sink.old) (K.held sink.new) file)
        ⊎ (status_at result ≡ 5) }

    // A chunk is decoded alone: of the container of a chunk of a file within the limit, exactly that slice of the file
    // is appended.
    ensures chunk_back { (workers most size index : ℕ) (bytes file : List ℕ)
        → Means (map string_bytes words.now) (Decode workers)
        → ¬ Rose S.faults S.full source.old source.new → ¬ Rose K.faults K.full sink.old sink.new
        → S.left source.old ≡ Some bytes → length file ≤ limit_of (Encode most)
        → 0 < most → most ≤ (layout_of Third).most → IsChunkOf most size index bytes file
        → ((status_at result ≡ 0)
        × Appends (K.held sink.old) (K.held sink.new) (chunk_of file size index))
        ⊎ (status_at result ≡ 5) }

    // A container of version 1 or 2 is migrated to the same one in version 2, whatever its streams are, and that stands
    // for the same.
    ensures migrated { (bytes : List ℕ) (plan : PlanFields) (b : BoxParts) (meaning : Meaning)
        → Means (map string_bytes words.now) Migrate
        → ¬ Rose S.faults S.full source.old source.new → ¬ Rose K.faults K.full sink.old sink.new
        → S.left source.old ≡ Some bytes → length bytes ≤ limit_of Migrate
        → IsBoxOf plan b bytes → IsRead migratable b.version
        → StandsFor bytes meaning
        → ((status_at result ≡ 0) × StandsFor (box_bytes (migrated b)) meaning
        × Appends (K.held sink.old) (K.held sink.new) (box_bytes (migrated b)))
        ⊎ (status_at result ≡ 5) }

    // A container that stands for a file is indexed to the file's container of version 5, of as many segments.
    ensures indexed { (bytes file : List ℕ) → Means (map string_bytes words.now) Index
        → ¬ Rose S.faults S.full source.old source.new → ¬ Rose K.faults K.full sink.old sink.new
        → S.left source.old ≡ Some bytes → length bytes ≤ limit_of Index
        → IsRead indexable (version_in bytes)
        → StandsFor bytes (record { bytes = file; verdict = Restored })
        → ((status_at result ≡ 0) × (most : ℕ) × (made : List ℕ)
        × IsContainerOf (version_in bytes) (most ∷ []) bytes file × IsContainerOf Fifth (most ∷ []) made file
        × Appends (K.held sink.old) (K.held sink.new) made)
        ⊎ (status_at result ≡ 5) }

    // A range is read alone: of the container of version 5 of a file within the limit, exactly that slice of the file
    // is appended.
    ensures range_back { (workers most from to : ℕ) (bytes file : List ℕ)
        → Means (map string_bytes words.now) (Range from to workers)
        → ¬ Rose S.faults S.full source.old source.new → ¬ Rose K.faults K.full sink.old sink.new
        → S.left source.old ≡ Some bytes → length file ≤ limit_of (Encode most)
        → 0 < most → most ≤ (layout_of Fifth).most → IsContainerOf Fifth (most ∷ []) bytes file
        → from ≤ to → to ≤ length file
        → ((status_at result ≡ 0)
        × Appends (K.held sink.old) (K.held sink.new) (slice from to file))
        ⊎ (status_at result ≡ 5) }

    // `sample` reads nothing and refuses nothing: 0, or 4 if the sink failed, or 5.
    ensures sampled { (seed columns rows : ℕ)
        → Means (map string_bytes words.now) (Sample seed columns rows)
        → (source.new ≡ source.old)
        × ((status_at result ≡ 0) ⊎ ((status_at result ≡ 4) ⊎ (status_at result ≡ 5))) }

    ensures source_lasting { S.faults source.old ≤ S.faults source.new }
    ensures sink_lasting { K.faults sink.old ≤ K.faults sink.new }
    ensures note_lasting { N.faults note.old ≤ N.faults note.new }
{
    let ending = answer(rt, alloc, words, source, sink, gate);
    tell(note, &ending);
    ending
}

/// The ending of a program that has no memory for its arguments, and so can't call `run`: nothing is read or written,
/// and `note` gets the line of status 5.
pub fn no_memory_for_words<N: Sink>(note: &mut N, short: NoMemory) -> Ending
    requires { TakesAll N.takes note.old }
    ensures status { result ≡ Ending.NoMemory short }
    ensures said { Notes N.held N.faults N.full note.old note.new (line_at 5) }
    ensures note_lasting { N.faults note.old ≤ N.faults note.new }
{
    let ending = Ending::NoMemory(short);
    tell(note, &ending);
    ending
}

// Carries out the command that the arguments mean.
#[inline(never)]
fn answer<R: Threads + Wait + Sync, S: Source, K: Sink + Send, G: Gate + Sync>(
    rt: &R,
    alloc: Global,
    words: &[String],
    source: &mut S,
    sink: &mut K,
    gate: &G,
) -> Ending
    requires takes { (command : Command) (bytes : List ℕ) → Means (map string_bytes words.now) command
        → MayTake command (S.left source.old) bytes
        → TakesAnswers K.takes command bytes sink.old }
    requires readable { S.readable source.old }
    ensures ending { Answered K.held K.faults K.full S.left S.faults S.full
        (map string_bytes words.now) source.old source.new sink.old sink.new result }
    ensures taken { (command : Command) → Means (map string_bytes words.now) command
        → TakenWithin (limit_of command + 1) (S.left source.old) (S.left source.new) }
    ensures unread { ((command : Command) → ¬ Means (map string_bytes words.now) command)
        → source.new ≡ source.old }
    ensures sampled { (seed columns rows : ℕ)
        → Means (map string_bytes words.now) (Sample seed columns rows)
        → (source.new ≡ source.old) × SampleEnds result }
    ensures source_lasting { S.faults source.old ≤ S.faults source.new }
    ensures sink_lasting { K.faults sink.old ≤ K.faults sink.new }
{
    match command_of(alloc, words) {
        Ok(command) => transfer(rt, alloc, command, source, sink, gate),
        Err(WordsError::Refused) => Ending::WordsRefused,
        Err(WordsError::NoMemory(short)) => Ending::NoMemory(short),
    }
}

// Writes into the sink what the command makes of the source's bytes, or `sample` of none.
#[inline(never)]
fn transfer<R: Threads + Wait + Sync, S: Source, K: Sink + Send, G: Gate + Sync>(
    rt: &R,
    alloc: Global,
    command: Command,
    source: &mut S,
    sink: &mut K,
    gate: &G,
) -> Ending
    requires in_range { IsInRange command }
    requires takes { (bytes : List ℕ) → MayTake command (S.left source.old) bytes
        → TakesAnswers K.takes command bytes sink.old }
    requires readable { S.readable source.old }
    ensures ending { Transferred K.held K.faults K.full S.left S.faults S.full command
        source.old source.new sink.old sink.new result }
    ensures taken { TakenWithin (limit_of command + 1) (S.left source.old) (S.left source.new) }
    ensures sampled { (seed columns rows : ℕ) → command ≡ Sample seed columns rows
        → (source.new ≡ source.old) × SampleEnds result }
    ensures source_lasting { S.faults source.old ≤ S.faults source.new }
    ensures sink_lasting { K.faults sink.old ≤ K.faults sink.new }
{
    if !reads(command) {
        return carry_out(rt, alloc, command, &[], sink, gate);
    }
    let bytes = match read_all(alloc, source, limit(command)) {
        Ok(bytes) => bytes,
        Err(ReadAll::ReadFault) => return Ending::ReadFailed,
        Err(ReadAll::TooLong) => return Ending::Refused(Refusal::TooLong),
        Err(ReadAll::NoMemory(short)) => return Ending::NoMemory(short),
    };
    carry_out(rt, alloc, command, bytes.as_slice(), sink, gate)
}

// Notes how a command ended.
#[inline(never)]
fn tell<N: Sink>(note: &mut N, ending: &Ending)
    requires { TakesAll N.takes note.old }
    ensures notes { Notes N.held N.faults N.full note.old note.new (ending_line ending.now) }
    ensures lasting { N.faults note.old ≤ N.faults note.new }
{
    let line = ending.line();
    // A note that fails changes no status: the status says what the line says.
    let _ = write_all(note, line.bytes());
}
