ghost use Rattle.work_stamp.specs.WordLaws.{AreNoFronts, AreReadAgain, AreReadFromWords};

/// A law of words, with nothing to run: an item is read again from its words, whatever follows them.
pub fn words_are_read_again()
    ensures { AreReadAgain }
{}

/// A law of words, with nothing to run: no item's words begin the words of another item and stop short of their end.
pub fn no_words_begin_others()
    ensures { AreNoFronts }
{}

/// A law of words, with nothing to run: an item is read only from a list that begins with its words.
pub fn only_words_are_read()
    ensures { AreReadFromWords }
{}
