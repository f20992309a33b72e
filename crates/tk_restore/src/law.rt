//! Laws, as functions that do nothing.
ghost use Rattle.tk_restore.specs.Restoration.{RestoredOpen};

/// A restored file opens, as no part of a set, and has the records of the image's restored groups.
pub fn restored_files_open()
    ensures { RestoredOpen }
{}
