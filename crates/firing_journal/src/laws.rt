ghost use Rattle.firing_journal.specs.JournalText.{OneText, ReadBack};

/// What is written of a journal that fits a system is a text of it for that system, whatever stands behind it.
pub fn is_read_back()
    ensures { ReadBack }
{}

/// A text of a journal begins with the one text that is written of it.
pub fn has_one_text()
    ensures { OneText }
{}
