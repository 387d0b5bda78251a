// What holds of every file and every container.
ghost use Rattle.std.specs.Prelude.{◌≡◌, ◌*◌, ◌<◌, ◌≤◌, ℕ, List, false, flat_map, length, sum};
ghost use Rattle.std.specs.List.{AllByRecursion, range_with_len};
ghost use Rattle.bit_list.specs.Bits.{IsByte};
ghost use Rattle.scan_spec.specs.FileParts.{FileScan, IsFile};
ghost use Rattle.box_format.specs.Versions.{layout_of, version_in};
ghost use Rattle.box_format.specs.declared.version.Version.TheVariants.{Second, Third};
ghost use Rattle.byte_window.specs.Slices.{slice};
ghost use Rattle.container_spec.specs.ScansFiles.{IsContainerOf, IsContainerOfFile};
ghost use Rattle.container_spec.specs.Limits.{most_of_a_file};
ghost use Rattle.container_spec.specs.Chunks.{chunk_of};
ghost use Rattle.command_words.specs.declared.command.Command.{Command};
ghost use Rattle.command_words.specs.declared.command.Command.TheVariants.{Encode, Decode, Migrate, Chunk, Index, Range};
ghost use Rattle.lepton_run.specs.Answers.{Answer, Answers, Made, limit_of};
ghost use Rattle.lepton_run.specs.FileRows.{least, two_scans};

/// Each file that docs/JPEG.md accepts, up to 64 MiB, has a container for each number of segments, be it of one scan or
/// of several.
pub fn each_accepted_file_has_a_container()
    ensures { (most : ℕ) (file : List ℕ) (scans : List FileScan) (trailer : List ℕ)
        → AllByRecursion IsByte file → IsFile file scans trailer → length file ≤ most_of_a_file
        → (made : List ℕ) × IsContainerOfFile most made file }
{}

/// What was encoded is decoded: of the container that encode makes of a file, in any number of segments, decode makes
/// that file, with any number of workers.
pub fn decode_undoes_encode()
    ensures { (segments workers : ℕ) (file made : List ℕ) → 0 < segments
        → segments ≤ (layout_of Second).most → Answers (Encode segments) file (Made made)
        → Answers (Decode workers) made (Made file) }
{}

/// Each chunk of a file is decoded alone: of the container that `chunk` makes, decode makes that slice of the file,
/// with any number of workers. The chunks of a size one after another are the file.
pub fn chunks_are_decoded_alone()
    ensures slice { (index size segments workers : ℕ) (file made : List ℕ) → 0 < segments
        → segments ≤ (layout_of Third).most
        → Answers (Chunk index size segments) file (Made made)
        → Answers (Decode workers) made (Made (chunk_of file size index)) }
    ensures joined { (count size segments workers : ℕ) (file : List ℕ) (made decoded : ℕ → List ℕ)
        → 0 < segments → segments ≤ (layout_of Third).most → length file ≤ count * size
        → ((i : ℕ) → i < count → Answers (Chunk i size segments) file (Made (made i)))
        → ((i : ℕ) → i < count → Answers (Decode workers) (made i) (Made (decoded i)))
        → flat_map decoded (range_with_len 0 count) ≡ file }
{}

/// Ranges of a file are read alone: of the container that `index` makes of one that stands for a file, `range` makes
/// each slice of the file, with any number of workers, and decode the file, if the places that are added stay within
/// what decode takes.
pub fn ranges_are_read_alone()
    ensures slice { (from to workers others : ℕ) (bytes file made : List ℕ)
        → Answers (Decode others) bytes (Made file) → Answers Index bytes (Made made)
        → length made ≤ limit_of Index → from ≤ to → to ≤ length file
        → Answers (Range from to workers) made (Made (slice from to file)) }
    ensures whole { (workers others : ℕ) (bytes file made : List ℕ)
        → Answers (Decode others) bytes (Made file) → Answers Index bytes (Made made)
        → length made ≤ limit_of Index → Answers (Decode workers) made (Made file) }
{}

/// A whole file's container has one spelling: what decode reads is the container of the file that decode makes of it,
/// in the version that it names and with some number of segments in each scan.
pub fn one_spelling_a_file()
    ensures { (workers : ℕ) (made file : List ℕ) → (layout_of (version_in made)).chunked ≡ false
        → Answers (Decode workers) made (Made file)
        → (segments : List ℕ) × AllByRecursion (λ some. 0 < some) segments
        × (sum segments ≤ (layout_of (version_in made)).most)
        × IsContainerOf (version_in made) segments made file }
{}

/// A container is migrated to one that stands for the same: decode answers to both the same, bytes and refusal, with
/// any number of workers, if the four bytes that are added stay within what decode takes.
pub fn migrated_stands_for_the_same()
    ensures { (workers : ℕ) (bytes made : List ℕ) (answer : Answer)
        → Answers Migrate bytes (Made made) → length made ≤ limit_of (Decode workers)
        → Answers (Decode workers) bytes answer → Answers (Decode workers) made answer }
{}

/// Bytes have one answer: one container, or one file, or one cause of their refusal with the bytes that are written
/// before.
pub fn one_answer()
    ensures { (command : Command) (bytes : List ℕ) (a b : Answer)
        → Answers command bytes a → Answers command bytes b → a ≡ b }
{}

/// The definitions computed on a file of two scans, which is accepted, and on the least file and its container.
pub fn rows_of_files()
    ensures two_scans { two_scans }
    ensures least { least }
{}
