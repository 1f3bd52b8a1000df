//! Laws of scope. The functions do nothing: their contracts are the laws.
ghost use Rattle.std.specs.Prelude.{◌≡◌, ◌≤◌, ◌∷◌, ◌++◌, ℕ, false, [], List, length};
ghost use Rattle.vb_syntax.specs.declared.note.Note.{Note};
ghost use Rattle.vb_syntax.specs.declared.unit.Unit.{Unit as Script};
ghost use Rattle.std.specs.List.{flat_map};
ghost use Rattle.vb_syntax.specs.scope.Faults.{faults_of};
ghost use Rattle.vb_syntax.specs.declared.note.ScopeFault.{ScopeFault};
ghost use Rattle.scope_laws.specs.Places.{IsAscending, NoneBelow, Place, fault_lines, how_often, places_in, script_lines};
ghost use Rattle.vb_syntax.specs.scope.Names.{Name};
ghost use Rattle.vb_syntax.specs.scope.Notes.{Notes};
ghost use Rattle.vb_syntax.specs.scope.Programs.{Parts};
ghost use Rattle.vb_syntax.specs.scope.Resolving.{IsFirstFault, Resolves};
ghost use Rattle.vb_syntax.specs.declared.note.Level.TheVariants as level;
ghost use Rattle.vb_syntax.specs.scope.Scopes.{Scopes, Declarations, body_scope_of, declared, named_in, on_page_in};
ghost use Rattle.vb_syntax.specs.scope.Scopes.{page_scope_of, scopes_of};
ghost use Rattle.scope_laws.specs.Lives.{IsLocal, IsOnPage, IsUndeclared, Mentions};
ghost use Rattle.scope_laws.specs.Unique.{lines_where, is_redefined, is_const_target, later_clashes, written_constants};

/// A name is declared again exactly where a declaration clashes with an earlier one of its scope: each line has as many
/// such faults as such declarations.
pub fn redefined_later()
    ensures { (script : Script) (line : ℕ) → how_often line (lines_where is_redefined (faults_of script))
        ≡ how_often line (flat_map (λ (place : Place). later_clashes [] place.1) (places_in script)) }
{}

/// A constant is written exactly where a name is written that stands for one in the scopes around it.
pub fn constants_written()
    ensures { (script : Script) (line : ℕ) → how_often line (lines_where is_const_target (faults_of script))
        ≡ how_often line (flat_map (λ (place : Place). written_constants place.0 place.1) (places_in script)) }
{}

/// A script that resolves to a program has at most 65,535 names.
pub fn few_names()
    ensures { (script : Script) (program : Parts) → Resolves script program → length program.unit.names ≤ 65535 }
{}

/// Without Option Explicit a name that the page mentions, and that nothing declares, is a variable of the page.
pub fn undeclared_on_page()
    ensures { (before : Notes) (note : Note) (after : Notes) (name : Name) → Mentions note.kind name
        → IsUndeclared (on_page_in (declared level.Page (before ++ note ∷ after))) name
        → IsOnPage (named_in (on_page_in (page_scope_of false (before ++ note ∷ after))) false name) }
{}

/// Without Option Explicit a name that a procedure mentions, and that neither it nor its class nor the page has, is a
/// variable of the procedure.
pub fn undeclared_in_procedure()
    ensures { (page class : Declarations) (before : Notes) (note : Note) (after : Notes) (name : Name)
        → Mentions note.kind name
        → IsUndeclared (scopes_of page class (declared level.Body (before ++ note ∷ after))) name
        → IsLocal (named_in (scopes_of page class (body_scope_of false page class (before ++ note ∷ after))) false name) }
{}

/// Where no line of what a script says is less than one before it, its first fault stands in the least line.
pub fn first_fault_in_the_least_line()
    ensures { (script : Script) (fault : ScopeFault) (line : ℕ) → IsAscending (script_lines script)
        → IsFirstFault script fault line → NoneBelow line (fault_lines (faults_of script)) }
{}
