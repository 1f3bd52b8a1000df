//! Laws of the functions' definitions. The functions do nothing: their contracts are the laws.
ghost use Rattle.string_laws.specs.Laws as spec;

/// Left, Mid and Right put together are the text.
pub fn parts_together()
    ensures { spec.PartsTogether }
{}

/// Left and Right give as many characters as are asked for, or all.
pub fn ends_measured()
    ensures { spec.EndsMeasured }
{}

/// LTrim, RTrim and Trim take spaces away at the ends of a text, all of them and nothing else.
pub fn trims()
    ensures { spec.Trims }
{}

/// StrReverse turns a text round.
pub fn reverses()
    ensures { spec.Reverses }
{}

/// StrComp without case is StrComp of what LCase gives.
pub fn compares_letters()
    ensures { spec.ComparesLetters }
{}

/// StrComp turned round is the opposite.
pub fn compares_turned()
    ensures { spec.ComparesTurned }
{}

/// Chr of Asc is the character.
pub fn characters_come_back()
    ensures { spec.CharactersComeBack }
{}

/// InStr and InStrRev agree where the pattern stands once.
pub fn searches_agree()
    ensures { spec.SearchesAgree }
{}

/// InStr and InStrRev without case are searches of what LCase gives.
pub fn searches_letters()
    ensures { spec.SearchesLetters }
{}

/// The parts of Split are joined to the text, and hold no separator.
pub fn splits()
    ensures { spec.Splits }
{}

/// Split gives as many parts as are asked for, or all.
pub fn splits_at_most()
    ensures { spec.SplitsAtMost }
{}

/// Replace is Join of Split.
pub fn replaces_by_joining()
    ensures { spec.ReplacesByJoining }
{}

/// What the functions give is sound.
pub fn results_are_sound()
    ensures { spec.GivesSound }
{}
