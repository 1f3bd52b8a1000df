//! What holds of every act of a page, and of every run. The functions do nothing but call up
//! the laws that theirs stand on: their contracts are the laws.
ghost use Rattle.std.specs.Prelude.{◌≡◌, ◌≢◌, IfSome, List, None};
ghost use Rattle.vb_value.specs.declared.application.AppReply.{AppReply};
ghost use Rattle.vb_syntax.specs.declared.act.Act.{Act};
ghost use Rattle.vb_syntax.specs.declared.program.Program.{Program};
ghost use Rattle.vb_meaning.specs.Acts.{act_of};
ghost use Rattle.vb_objects.specs.Seen.{host};
ghost use Rattle.asp_job.specs.Told.{Ends, Told};
ghost use Rattle.asp_job.specs.declared.answer.Finished.{Finished};
ghost use Rattle.asp_objects.specs.declared.objects.PageObjects.{PageObjects};
ghost use Rattle.asp_objects.specs.Members.{asked, answered};
ghost use Rattle.asp_response.specs.Sound.{ArePrintable, IsSound};
ghost use Rattle.asp_acts.specs.ActEnds.{MetNoLimit, TellsFirst, ends_of};
ghost use Rattle.asp_acts.specs.Running.{does};
ghost use Rattle.asp_site.specs.declared.site.Site.{Site};

use asp_response::{drafts_finish_sound, fixed_answers_are_sound};

/// An act over a page's objects has an end or wants a call: that memory ran out is no outcome of its meaning.
pub fn acts_come()
    ensures { (program : Program) (which : Act) (objects : PageObjects) (replies : List AppReply)
        → (act_of PageObjects (host asked answered) program which objects replies).0 ≢ None }
{}

/// Where no limit ended an act of a run, as many objects have ended by its end as were made, each once.
pub fn objects_end_in_runs()
    ensures { (site : Site) (told : Told) (finished : Finished) → MetNoLimit (ends_of site told)
        → does site told ≡ Ends finished → finished.made ≡ finished.finished }
{}

/// A run that has ended tells why the first of its acts that failed did, by the number of its error or by its limit, and
/// nothing where none of them failed.
pub fn first_failures_are_told()
    ensures { (site : Site) (told : Told) (finished : Finished) → does site told ≡ Ends finished
        → TellsFirst (ends_of site told) finished.fail }
{}

/// The answer of a run is sound, where the letters of its session's key are printable: of a page, whatever it says, of a
/// static file, and each fixed one.
pub fn runs_answer_sound()
    ensures { (site : Site) (told : Told) (finished : Finished) → ArePrintable told.cookie
        → does site told ≡ Ends finished → IfSome finished.answer IsSound }
{
    drafts_finish_sound();
    fixed_answers_are_sound();
}
