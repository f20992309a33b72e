//! Laws, as functions that do nothing.
ghost use Rattle.tk_block.specs.Laid.{AppendedAreLaid, BlocksAreRead};

/// Blocks of any extent and padding are read back, and those that are appended are such blocks.
pub fn laid_blocks_are_read()
    ensures appended { AppendedAreLaid }
    ensures read { BlocksAreRead }
{}
