//! Laws, as functions that do nothing.
ghost use Rattle.tk_batch.specs.Facts.{FactsTell};
ghost use Rattle.tk_batch.specs.Written.{LinesAreReadBack};

/// What was written as a line that the rules take is read as that line.
pub fn lines_are_read_back()
    ensures { LinesAreReadBack }
{}

/// What workers know at their end, and the pass that theirs were joined to, is that the script was told.
pub fn facts_tell()
    ensures { FactsTell }
{}
