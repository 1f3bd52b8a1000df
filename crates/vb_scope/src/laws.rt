//! Laws of scope. The functions do nothing: their contracts are the laws.
ghost use Rattle.std.specs.Prelude.{◌≡◌, ◌⊎◌, ℕ};
ghost use Rattle.vb_syntax.specs.declared.note.ScopeFault.{ScopeFault};
ghost use Rattle.vb_syntax.specs.declared.unit.Unit.{Unit as Script};
ghost use Rattle.vb_syntax.specs.scope.Resolving.{IsFirstFault, Resolves};
ghost use Rattle.vb_syntax.specs.scope.Programs.{Parts};

/// A script resolves to one program at most.
pub fn one_program()
    ensures { (script : Script) (one other : Parts) → Resolves script one → Resolves script other → one ≡ other }
{}

/// A script resolves to a program, or has a first fault.
pub fn program_or_first_fault()
    ensures { (script : Script) → ((program : Parts) × Resolves script program)
        ⊎ ((fault : ScopeFault) × (line : ℕ) × IsFirstFault script fault line) }
{}

/// A script that resolves to a program has no fault.
pub fn program_faultless()
    ensures { (script : Script) (program : Parts) (fault : ScopeFault) (line : ℕ) → Resolves script program
        → IsFirstFault script fault line → ⊥ }
{}
