//! The laws of where what is kept leads, as contracts of functions without code.
ghost use Rattle.file_images.specs.LeadingLaws.{RootsLead, AllRootsLead, JournalLeads, PagesLead};

/// The law of leading roots: which roots lead where another does, and along what; and all that may be the newest at once.
pub fn leading_root_law<const K: usize>()
    ensures along { RootsLead K }
    ensures together { AllRootsLead K }
{}

/// The law of the leading journal: what may be done with slots and gates so that a root leads where it did.
pub fn leading_journal_law<const K: usize>()
    ensures { JournalLeads K }
{}

/// The law of leading pages: which data pages may be written, settled and let go so that a root leads where it did.
pub fn leading_page_law<const K: usize>()
    ensures { PagesLead K }
{}
