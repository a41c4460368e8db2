//! Laws about program files, each a function without a body whose contract is the law.
//! A proof of another crate gets a law by a call, which costs nothing.
ghost use Rattle.wq_code.specs.Law.{FilesAreSpellings, SpellingsAreReadBack, OneSpelling};
ghost use Rattle.wq_code.specs.Law.{NoneBeginsAnother, FaultsStay, FrontsAreCutShort};
ghost use Rattle.wq_code.specs.Law.{CutShortAreFronts, EndsAreSpellings, FaultyBeginNone};
ghost use Rattle.wq_code.specs.Law.{FirstFilesStay, FirstFaultsStay, FirstFilesWere, FirstRunsStay};

/// Bytes are read as a program exactly if they are its spelling.
pub fn files_are_spellings()
    ensures { FilesAreSpellings }
{}

/// A program that is spelled is read back.
pub fn spellings_are_read_back()
    ensures { SpellingsAreReadBack }
{}

/// A program has one spelling in each version that can hold it.
#[tactic(auto, using(crate::proofs::FileLaws::one_spelling))]
pub fn one_spelling()
    ensures { OneSpelling }
{}

/// No spelling of any program begins another.
pub fn none_begins_another()
    ensures { NoneBeginsAnother }
{}

/// A fault stays whatever bytes follow, unless the bytes were cut short.
#[tactic(auto, using(crate::proofs::FileLaws::faults_stay))]
pub fn faults_stay()
    ensures { FaultsStay }
{}

/// Each front of a spelling that is not all of it is cut short.
pub fn fronts_are_cut_short()
    ensures { FrontsAreCutShort }
{}

/// Bytes are cut short in two cases alone. They are a front of a spelling and not all of it, or end
/// within a number that no bytes after its first ones make right.
pub fn cut_short_are_fronts()
    ensures { CutShortAreFronts }
{}

/// Bytes follow the end exactly if a front of them is a spelling, and not all of them.
pub fn ends_are_spellings()
    ensures { EndsAreSpellings }
{}

/// Bytes with another fault than being cut short begin no spelling.
pub fn faulty_begin_none()
    ensures { FaultyBeginNone }
{}

/// Each file that was read while there was one version is read as the same program.
#[tactic(auto, using(crate::proofs::Firsts::first_files_stay))]
pub fn first_files_stay()
    ensures { FirstFilesStay }
{}

/// Each fault of a file of that time but another version is its fault today.
#[tactic(auto, using(crate::proofs::Firsts::first_faults_stay))]
pub fn first_faults_stay()
    ensures { FirstFaultsStay }
{}

/// A file that begins as each file of that time, and is read today, was read as the same program.
#[tactic(auto, using(crate::proofs::Firsts::first_files_were))]
pub fn first_files_were()
    ensures { FirstFilesWere }
{}

/// A run of a program of that time has the same outcome today, after each number of steps: the same
/// answer at the same cost.
#[tactic(auto, using(crate::proofs::FirstRuns::first_runs_stay))]
pub fn first_runs_stay()
    ensures { FirstRunsStay }
{}
