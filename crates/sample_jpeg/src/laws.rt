// What holds of every sample.
ghost use Rattle.sample_jpeg.specs.SampleLaw.{SamplesAreFiles};

/// Every sample is a file that is accepted: a header, the scan of its MCUs with pad bits of ones, and the marker that
/// ends an image; of at most 40,000,000 bytes.
pub fn samples_are_files()
    ensures { SamplesAreFiles }
{}
