// What holds of all segments, containers and files, of one scan and of several.
ghost use Rattle.container_spec.specs.SegmentLaws.{McusArePut, SegmentIsItsSlice, GoodHasItsStream, GoodHasItsPlaces};
ghost use Rattle.container_spec.specs.MeaningLaws.{FirstCanPad, SecondCanPad, MigratedMeansTheSame, SegmentIsShort, IndexedIsContainer, IndexedStays, PlacesAreFound};
ghost use Rattle.container_spec.specs.MeaningRows.{zeros_are_put, faults_are_told, places_are_counted, containers_are_joined, pad_is_spelled, lists_are_spelled, chunks_are_slices, places_are_looked_at, places_are_found};
ghost use Rattle.container_spec.specs.ScansMeaningRows.{shares, two_segments, two_stand};
ghost use Rattle.container_spec.specs.ScansMeaningLaws.{RefusedIsNone, StandsForOne, FileIsRestored, ContainerIsRestored, RestoredIsContainer, OneContainer, OneContainerOfFile, ContainedIsNotRefused, AcceptedIsNotRefused, SeveralIsNotOne, OneFileRefusal, ContainerIsShort, ContainerOfFileIsShort};
ghost use Rattle.container_spec.specs.ChunkLaws.{ChunkIsRestored, ChunkIsShort, ChunkedIsNotRefused, ChunkedIsOne, ChunksAreRestored, OneChunk, RowsArePlaced, SegmentsAreTheRows};
ghost use Rattle.container_spec.specs.ChunkRows.{chunks_of_four_rows, one_byte_across_four_rows};
ghost use Rattle.container_spec.specs.RangeMeaningLaws.{EndIsKept, RangeIsSlice};
ghost use Rattle.container_spec.specs.RangeMeaningRows.{misplaced_ranges, ranges_on_the_seam};

/// MCUs that a stream gives are put, and so a segment of a scan stands for its slice of the scan.
pub fn segments_are_slices()
    ensures put { McusArePut }
    ensures slice { SegmentIsItsSlice }
{}

/// A segment that ends well has MCUs with its bytes, and their stream is the whole of its stream. If places are kept
/// for it, it has as many bytes.
pub fn good_segments_have_their_stream()
    ensures stream { GoodHasItsStream }
    ensures places { GoodHasItsPlaces }
{}

/// Bytes stand for one thing as a container. A file's container stands for that file, in each version that can say its
/// pad bits, and what stands for a file, in a version of whole files, is its container. Version 2 can always say them,
/// version 1 if no two intervals are padded with different bits.
pub fn containers_stand_for_files()
    ensures none { RefusedIsNone }
    ensures meaning { StandsForOne }
    ensures restored { FileIsRestored }
    ensures encoded { ContainerIsRestored }
    ensures spelling { RestoredIsContainer }
    ensures first { FirstCanPad }
    ensures second { SecondCanPad }
    ensures migrated { MigratedMeansTheSame }
{}

/// A container that stands for a file has one of version 5, with the places found, that is the file's too. One that
/// keeps places already keeps the ones found. The places found of any container, whatever its streams, are such as a
/// container may keep.
pub fn indexed_containers_stand_for_files()
    ensures indexed { IndexedIsContainer }
    ensures stays { IndexedStays }
    ensures found { PlacesAreFound }
{}

/// Whatever its stream, a segment of a container has fewer bytes than 64 bits count.
pub fn segments_are_short()
    ensures { SegmentIsShort }
{}

/// A file has at most one container of each version and number of segments, which isn't too long to be decoded. A file
/// that has one isn't refused, nor is a file that has scans, and a file that is refused is so for one cause. A file of
/// several scans isn't one of one.
pub fn files_have_one_container()
    ensures one { OneContainer }
    ensures encoded { OneContainerOfFile }
    ensures apart { ContainedIsNotRefused }
    ensures accepted { AcceptedIsNotRefused }
    ensures several { SeveralIsNotOne }
    ensures refusal { OneFileRefusal }
    ensures short { ContainerIsShort }
    ensures encoded_short { ContainerOfFileIsShort }
{}

/// The rows of a file of one scan have a byte for each of their places, and segments of rows are the rows. A chunk's
/// container stands for the chunk, and the chunks one after another are the file. A chunk has one container of each
/// number of segments, and decode accepts it. A file that has a chunk isn't refused, and has one scan.
pub fn chunks_are_restored()
    ensures placed { RowsArePlaced }
    ensures segments { SegmentsAreTheRows }
    ensures restored { ChunkIsRestored }
    ensures joined { ChunksAreRestored }
    ensures one_chunk { OneChunk }
    ensures apart { ChunkedIsNotRefused }
    ensures one_scan { ChunkedIsOne }
    ensures short { ChunkIsShort }
{}

/// The definitions computed on worked segments and containers.
pub fn rows_of_meanings()
    ensures zeros { zeros_are_put }
    ensures faults { faults_are_told }
    ensures places { places_are_counted }
    ensures containers { containers_are_joined }
    ensures pads { pad_is_spelled }
    ensures lists { lists_are_spelled }
    ensures chunks { chunks_are_slices }
    ensures looked { places_are_looked_at }
    ensures found { places_are_found }
{}

/// The definitions computed on a worked container of two scans.
pub fn rows_of_scans()
    ensures meaning { two_stand }
    ensures segments { two_segments }
    ensures shares { shares }
{}

/// The definitions computed on worked chunks.
pub fn rows_of_chunks()
    ensures seam { one_byte_across_four_rows }
    ensures containers { chunks_of_four_rows }
{}

/// If a container of version 5 stands for a file, the place where it says that the file ends is the file's end, and
/// each range of it is the file's slice.
pub fn ranges_of_containers_are_slices()
    ensures end { EndIsKept }
    ensures slice { RangeIsSlice }
{}

/// The definitions computed on worked ranges.
pub fn rows_of_ranges_of_containers()
    ensures seam { ranges_on_the_seam }
    ensures misplaced { misplaced_ranges }
{}
