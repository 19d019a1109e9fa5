//! Laws on the definitions alone.

ghost use Rattle.map_write.specs.OldNumbers.{OldFilesKeepTheirBytes};
ghost use Rattle.map_write.specs.SavedAgain.{SavedIsReadAgain};

/// What is saved is read again as the same document. Each document that was read is spelled as a text can spell it, and
/// without a bad brush it can be saved.
pub fn saved_is_read_again_law()
    ensures { SavedIsReadAgain }
{}

/// Old files keep their bytes. A document whose axes, offsets and scales are counts of millionths, as old files have them,
/// is saved in the counts that are kept today as the text that six decimals gave, and that text reads as the document in
/// today's counts.
pub fn old_files_law()
    ensures { OldFilesKeepTheirBytes }
{}
