//! Scripts as programs.
ghost use Rattle.std.specs.Prelude.{◌≡◌, ◌≤◌, [], IfOk, Ok, length, map, sum};
ghost use Rattle.std.specs.List.{flat_map};
ghost use Rattle.vb_value.specs.Outcome.{Answers, OnFault};
ghost use Rattle.vb_value.specs.declared.stop.Stop.TheVariants.{Memory as OutOfMemory};
ghost use Rattle.vb_syntax.specs.scope.Resolving.{IsFirstFault, Resolves};
ghost use Rattle.vb_syntax.specs.scope.Faults.{faults_of, names_of};
ghost use Rattle.vb_syntax.specs.scope.Programs.{Parts, program_of};
ghost use Rattle.vb_syntax.specs.scope.Scopes.{page_scope as scope_of_page};
ghost use Rattle.vb_syntax.specs.scope.Units.{item_notes};
ghost use Rattle.vb_names.specs.Checking.{Finds};
ghost use Rattle.vb_names.specs.Declarations.{declarations_seen};
ghost use Rattle.vb_scope.specs.Answers.{answered, parts_of};
ghost use Rattle.vb_scope.specs.Inside.{scopes_inside};
ghost use Rattle.vb_scope.specs.Parts.{parts_by};

use crate::listing::{Listing, list_names};
use crate::noting::{ItemNotes, notes_of_items};
use crate::trees::{Script, Trees, page_trees};
use crate::unit_checks::check_items;
use std::alloc::Global;
use vb_names::{Declarations, DeclaredNames, Names, page_scope};
use vb_syntax::program::{Constant, DictionaryMember, Program, Unit as ResolvedUnit, Variable};
use vb_syntax::{ScopeStop, Unit};
use vb_value::{List, Memory};

#[tactic(auto, unfolding(vb_syntax::specs::scope::Faults::faults_of, vb_syntax::specs::scope::Faults::names_of))]
/// Checks a script, and gives its names and the scopes inside each of its items.
fn check_unit(
    alloc: Global,
    unit: &Unit,
    page: &Declarations,
    noted: &ItemNotes,
) -> Result<(Names, List<List<Declarations>>), ScopeStop>
    requires page { declarations_seen page.now ≡ scope_of_page unit.now }
    requires parts { parts_by noted.now.counts noted.now.notes ≡ map item_notes unit.now.items }
    requires within { sum noted.now.counts ≤ length noted.now.notes }
    ensures faults { Finds result (faults_of unit.now) }
    ensures names { IfOk result (λ found. found.0 ≡ names_of unit.now) }
    ensures inside { IfOk result (λ found. map (map declarations_seen) found.1
        ≡ map (scopes_inside unit.now.option_explicit (declarations_seen page.now)) unit.now.items) }
{
    let mut names = Names::with_capacity(alloc, page.names.len())?;
    let mut declared = DeclaredNames::with_capacity(alloc, page.names.len())?;
    let (explicit, items) = (unit.option_explicit, unit.items.as_slice());
    let inside = check_items(
        &mut names,
        &mut declared,
        alloc,
        explicit,
        page,
        items,
        noted,
    );
    drop(declared);
    match inside {
        Ok(inside) => Ok((names, inside)),
        Err(stop) => {
            drop(names);
            Err(stop)
        }
    }
}

/// Checks a script by what its items say, and gives its page's scope, its names and the scopes inside each item.
fn check_noted(
    alloc: Global,
    unit: &Unit,
    noted: &ItemNotes,
) -> Result<(Declarations, (Names, List<List<Declarations>>)), ScopeStop>
    requires notes { noted.now.notes ≡ flat_map item_notes unit.now.items }
    requires parts { parts_by noted.now.counts noted.now.notes ≡ map item_notes unit.now.items }
    requires within { sum noted.now.counts ≤ length noted.now.notes }
    ensures faults { Finds result (faults_of unit.now) }
    ensures page { IfOk result (λ found. declarations_seen found.0 ≡ scope_of_page unit.now) }
    ensures names { IfOk result (λ found. found.1.0 ≡ names_of unit.now) }
    ensures inside { IfOk result (λ found. map (map declarations_seen) found.1.1
        ≡ map (scopes_inside unit.now.option_explicit (declarations_seen found.0)) unit.now.items) }
{
    let page = page_scope(alloc, unit.option_explicit, noted.notes.as_slice())?;
    match check_unit(alloc, unit, &page, noted) {
        Ok(checked) => Ok((page, checked)),
        Err(stop) => {
            drop(page);
            Err(stop)
        }
    }
}

/// Checks a script, and gives its page's scope, its names and the scopes inside each of its items.
fn check_script(
    alloc: Global,
    unit: &Unit,
) -> Result<(Declarations, (Names, List<List<Declarations>>)), ScopeStop>
    ensures faults { Finds result (faults_of unit.now) }
    ensures page { IfOk result (λ found. declarations_seen found.0 ≡ scope_of_page unit.now) }
    ensures names { IfOk result (λ found. found.1.0 ≡ names_of unit.now) }
    ensures inside { IfOk result (λ found. map (map declarations_seen) found.1.1
        ≡ map (scopes_inside unit.now.option_explicit (declarations_seen found.0)) unit.now.items) }
{
    let noted = notes_of_items(alloc, unit.items.as_slice())?;
    let checked = check_noted(alloc, unit, &noted);
    drop(noted);
    checked
}

/// What a program does and has, taken over from its names, its trees and what it lists.
fn unit_of(
    names: Names,
    trees: Trees,
    variables: List<Variable>,
    constants: List<Constant>,
    dictionary: List<Option<DictionaryMember>>,
) -> ResolvedUnit
    ensures { result ≡ record {
      body = trees.body;
      variables = variables;
      constants = constants;
      procedures = trees.procedures;
      classes = trees.classes;
      names = names;
      dictionary = dictionary;
    } }
{
    ResolvedUnit {
        body: trees.body,
        variables,
        constants,
        procedures: trees.procedures,
        classes: trees.classes,
        names: names.into_texts(),
        dictionary,
    }
}

#[tactic(auto, using(crate::proofs::Programs::resolved), unfolding(vb_syntax::specs::scope::Programs::program_of))]
/// The program of a script without a fault, by its page's scope, its names, and the scopes inside each of its items.
fn program(
    alloc: Global,
    unit: Unit,
    page: Declarations,
    checked: (Names, List<List<Declarations>>),
) -> Result<Program, Memory>
    requires page { declarations_seen page ≡ scope_of_page unit }
    requires names { checked.0 ≡ names_of unit }
    requires inside { map (map declarations_seen) checked.1
        ≡ map (scopes_inside unit.option_explicit (declarations_seen page)) unit.items }
    requires faultless { faults_of unit ≡ [] }
    ensures { IfOk result (λ program. parts_of program ≡ program_of unit) }
{
    let (names, inside) = checked;
    let explicit = unit.option_explicit;
    let script = Script {
        alloc,
        explicit,
        page: &page,
        names: &names,
    };
    let trees = page_trees(script, unit.items, inside);
    match (trees, list_names(alloc, page, &names)) {
        (Ok(trees), Ok(listed)) => {
            let Listing {
                variables,
                procedures,
                classes,
                declared,
                constants,
                dictionary,
            } = listed;
            Ok(Program {
                unit: unit_of(names, trees, declared, constants, dictionary),
                vars: variables,
                procs: procedures,
                classes,
                explicit,
            })
        }
        (trees, listed) => {
            drop(trees);
            drop(listed);
            drop(names);
            Err(Memory)
        }
    }
}

/// Makes a script a program in which each name is what it stands for, or tells its first fault (VBScript 5.6 language
/// reference, "Scope and Lifetime of Variables").
pub fn resolve(alloc: Global, unit: Unit) -> Result<Program, ScopeStop>
    ensures program { IfOk result (λ program. Resolves unit (parts_of program)) }
    ensures only { (program : Parts) → Resolves unit program → Answers (answered result) OutOfMemory (Ok program) }
    ensures fault { OnFault result (IsFirstFault unit) }
{
    match check_script(alloc, &unit) {
        Ok((page, checked)) => Ok(program(alloc, unit, page, checked)?),
        Err(stop) => {
            drop(unit);
            Err(stop)
        }
    }
}
