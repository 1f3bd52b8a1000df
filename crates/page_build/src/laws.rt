//! Laws of scripts and of pages, and of what they make. The functions do nothing: their contracts are the laws.
ghost use Rattle.std.specs.Prelude.{◌≡◌, ℕ, Bool, List};
ghost use Rattle.vb_syntax.specs.scope.Programs.{Parts};
ghost use Rattle.page_build.specs.declared.fault.ScriptFault.{ScriptFault};
ghost use Rattle.vb_value.specs.declared.site_file.SiteFault.{SiteFault};
ghost use Rattle.page_read.specs.declared.located.Located.{Located};
ghost use Rattle.asp_site.specs.declared.site.Page.{Page};
ghost use Rattle.page_build.specs.Building.{HasPageFault, IsPageOf};
ghost use Rattle.page_build.specs.Script.{HasFault, IsProgramOf};

use vb_lex::{one_fault as one_word_fault, one_token_list, tokens_or_fault};
use vb_parse::laws::{one_fault as one_grammar_fault, one_unit, unit_faultless};
use vb_scope::{one_program as one_program_of_unit, program_faultless};

/// A text has one program at most.
pub fn one_program()
    ensures { (text : List ℕ) (one other : Parts) → IsProgramOf text one → IsProgramOf text other → one ≡ other }
{
    one_token_list();
    one_unit();
    one_program_of_unit();
}

/// A text that has a program has no fault.
pub fn program_or_fault()
    ensures { (text : List ℕ) (program : Parts) (kind : ScriptFault) (line : ℕ) → IsProgramOf text program
        → HasFault text kind line → ⊥ }
{
    one_token_list();
    tokens_or_fault();
    one_unit();
    unit_faultless();
    program_faultless();
}

/// A text has one fault, in one line.
pub fn one_fault()
    ensures { (text : List ℕ) (kind other : ScriptFault) (line number : ℕ) → HasFault text kind line
        → HasFault text other number → (kind ≡ other) × (line ≡ number) }
{
    one_token_list();
    one_word_fault();
    tokens_or_fault();
    one_unit();
    one_grammar_fault();
    unit_faultless();
}

/// Parts that make a page have no fault.
pub fn page_or_fault()
    ensures { (path : List ℕ) (parts : List Located) (global : Bool) (page : Page) (fault : SiteFault)
        → IsPageOf path parts global page → HasPageFault path parts global fault → ⊥ }
{
    one_token_list();
    tokens_or_fault();
    one_unit();
    unit_faultless();
    program_faultless();
}

/// Parts have one fault.
pub fn one_page_fault()
    ensures { (path : List ℕ) (parts : List Located) (global : Bool) (fault other : SiteFault)
        → HasPageFault path parts global fault → HasPageFault path parts global other → fault ≡ other }
{
    one_token_list();
    one_word_fault();
    tokens_or_fault();
    one_unit();
    one_grammar_fault();
    unit_faultless();
}
