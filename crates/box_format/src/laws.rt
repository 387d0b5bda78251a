// What holds of all containers, and the definitions computed on worked ones.
ghost use Rattle.box_format.specs.Laws.{ContainerPasses, PassedIsContainer, OneListOfScans, OneRefusal, NeverBoth};
ghost use Rattle.box_format.specs.SingleLaws.{OneIsContainer, OneOrSeveral, MigratedIsBox, RelaidIsMigrated, SecondStays};
ghost use Rattle.box_format.specs.Rows.{laid_out, early, late, chunks, places, prefixes, several};
ghost use Rattle.box_format.specs.ScansRows.{laid_out as two_laid_out, scans as two_scans, headers as two_headers, early as two_early, late as two_late, prefixes as two_prefixes};

/// A container has one list of scans, other bytes have one refusal, and no bytes are both.
pub fn containers_have_one_spelling()
    ensures pass { ContainerPasses }
    ensures passed { PassedIsContainer }
    ensures one { OneListOfScans }
    ensures refusal { OneRefusal }
    ensures apart { NeverBoth }
{}

/// A container has one scan, or it is of version 4. The parts of one that has one scan and no chunk are, without its
/// places, those of one of version 2. If it's of version 1, the bytes of that one differ in two fields.
pub fn containers_have_one_scan_or_several()
    ensures one { OneIsContainer }
    ensures either { OneOrSeveral }
    ensures migrated { MigratedIsBox }
    ensures stays { SecondStays }
    ensures relaid { RelaidIsMigrated }
{}

/// The definitions computed on worked containers of one scan.
pub fn rows_of_containers()
    ensures laid_out { laid_out }
    ensures early { early }
    ensures late { late }
    ensures chunks { chunks }
    ensures places { places }
    ensures prefixes { prefixes }
    ensures several { several }
{}

/// And of two scans.
pub fn rows_of_scans_containers()
    ensures laid_out { two_laid_out }
    ensures scans { two_scans }
    ensures early { two_early }
    ensures headers { two_headers }
    ensures late { two_late }
    ensures prefixes { two_prefixes }
{}
