//! What holds of the objects of a page, whatever they are asked. The functions do nothing: their contracts are the laws.
ghost use Rattle.asp_objects.specs.Drafting.{AnsweredDrafts, AskedDrafts};
ghost use Rattle.asp_objects.specs.Remembering.{AnsweredRemembers, AskedRemembers};

/// No member stops because memory ran out: only its body does.
pub fn objects_remember()
    ensures asked { AskedRemembers }
    ensures answered { AnsweredRemembers }
{}

/// Whatever the objects are asked, what was said of the answer is what some calls on a draft have said.
pub fn drafts_are_said()
    ensures asked { AskedDrafts }
    ensures answered { AnsweredDrafts }
{}
