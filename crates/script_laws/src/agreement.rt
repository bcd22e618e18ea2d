// What the members of a script's ring execute is one list, and what its clients believe is of that list.
// `ring_model` says so of every legal list of events, and `fold_model` of the hearts of labels; here it is
// said of the lines of a script, in the words in which the script's text is defined.
ghost use Rattle.script_laws.specs.AgreementLaws.{ListsAreOne, BeliefsHold};
ghost use Rattle.script_laws.specs.FirstLines.{FirstLinesAreLegal, ScriptsAgree};

/// Whatever a correct member has executed after some of the lines is how the committed list began; the
/// committed list only grows; and each of its requests was submitted by one of the lines so far.
pub fn lists_are_one()
    ensures { ListsAreOne }
{}

/// Whatever a client believes after some of the lines is so: its heart of a label is a version that the
/// committed list has made of it, and its outcome of a request is that at a slot that holds the request.
pub fn beliefs_are_true()
    ensures { BeliefsHold }
{}

/// The first lines of a script that a text is, as many as one likes, are legal events: parties are
/// declared, forgers are declared faulty, and each request that is submitted has a spelling.
pub fn first_lines_are_legal()
    ensures { FirstLinesAreLegal }
{}

/// After as many first lines of a script that a text is as one likes, what members executed is one list
/// and what clients believe is so, where no two strings that these lines name have one name.
pub fn scripts_agree()
    ensures { ScriptsAgree }
{}
