//! The laws of scripts and of what is printed.
ghost use Rattle.grid_model.specs.ScriptLaws.{IsOneScript, PrintsLines};

/// The law of scripts: a script has one list of lines or one first fault.
pub fn script_law<const K: usize>()
    ensures { IsOneScript K }
{}

/// The law of the text: what is printed is the lines of the replies, each as one line of the text.
pub fn text_law<const K: usize>()
    ensures { PrintsLines K }
{}
