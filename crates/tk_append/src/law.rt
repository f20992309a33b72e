//! Laws, as functions that do nothing.
ghost use Rattle.tk_append.specs.OpeningLaws.{OpensClosed, OpensOnlyClosed};
ghost use Rattle.tk_append.specs.FairPast.{FairRestores, WholeRestores, FairMore, FairWritten, FairSettled};
ghost use Rattle.tk_append.specs.FreshLaws.{FreshAccepted};
ghost use Rattle.tk_append.specs.RestoringLaws.{ReadsBack, TornKeeps, FilesKeep, FrontsKept};

/// Openings accept the closed files of groups, and nothing else.
pub fn closed_files_open()
    ensures closed { OpensClosed }
    ensures only { OpensOnlyClosed }
{}

/// Files of groups are read back. They keep their groups, and so does what a write beside these leaves.
pub fn files_are_read_back()
    ensures whole { ReadsBack }
    ensures torn { TornKeeps }
    ensures files { FilesKeep }
    ensures fronts { FrontsKept }
{}

/// Images that are untorn by a fair past are restored, and fair pasts stay so.
pub fn fair_pasts_restore()
    ensures restored { FairRestores }
    ensures whole { WholeRestores }
    ensures more { FairMore }
    ensures written { FairWritten }
    ensures settled { FairSettled }
{}

/// A fresh file in which nothing fails is whole, where its header stood or was written.
pub fn fresh_files_are_whole()
    ensures accepted { FreshAccepted }
{}
