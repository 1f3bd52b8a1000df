//! The names that a program lists.
ghost use Rattle.std.specs.Prelude.{◌≡◌, ◌∷◌, [], IfOk, if◌then◌else◌, map};
ghost use Rattle.vb_value.specs.Outcome.{Adds, Gives};
ghost use Rattle.vb_syntax.specs.scope.Names as names_spec;
ghost use Rattle.vb_syntax.specs.scope.Programs as spec;
ghost use Rattle.vb_names.specs.Declarations.{declarations_seen};

use std::alloc::Global;
use vb_names::{Declarations, Names, dictionary_member};
use vb_syntax::program::{Constant, DictionaryMember, Named, Variable};
use vb_value::{List, Memory, Text};

/// The names of a page that a program lists, by what they stand for.
#[derive(Drop)]
struct ListedNames {
    variables: List<Text>,
    procedures: List<Text>,
    classes: List<Text>,
}

/// Puts a name in the list of what it stands for, or lets it go where no list has that.
fn put_name(all: &mut ListedNames, name: Text, meaning: &Named) -> Result<(), Memory>
    ensures variables { Adds result all.old.variables all.new.variables
        (if spec.is_place meaning.now then name ∷ [] else []) }
    ensures procedures { Adds result all.old.procedures all.new.procedures
        (if spec.is_procedure meaning.now then name ∷ [] else []) }
    ensures classes { Adds result all.old.classes all.new.classes
        (if spec.is_class meaning.now then name ∷ [] else []) }
{
    match meaning {
        Named::Place(_) => all.variables.push(name),
        Named::Procedure(_) => all.procedures.push(name),
        Named::Class(_) => all.classes.push(name),
        _ => Ok(()),
    }
}

/// The names of a page that a program lists, each list in their order.
fn listed_names(
    alloc: Global,
    names: List<Text>,
    mut meanings: &[Named],
) -> Result<ListedNames, Memory>
    ensures variables { IfOk result (λ all. all.variables ≡ spec.names_where spec.is_place names meanings.entry.now) }
    ensures procedures { IfOk result (λ all. all.procedures
        ≡ spec.names_where spec.is_procedure names meanings.entry.now) }
    ensures classes { IfOk result (λ all. all.classes ≡ spec.names_where spec.is_class names meanings.entry.now) }
{
    let mut all = ListedNames {
        variables: List::new(alloc),
        procedures: List::new(alloc),
        classes: List::new(alloc),
    };
    let mut names = names.into_vec().into_iter();
    while let Some(name) = names.next() {
        let [meaning, rest @ ..] = meanings else {
            return Ok(all);
        };
        put_name(&mut all, name, meaning)?;
        meanings = rest;
    }
    Ok(all)
}

/// Of each name, which member of a Dictionary it says.
fn dictionary(alloc: Global, names: &[Text]) -> Result<List<Option<DictionaryMember>>, Memory>
    ensures { Gives result (map names_spec.dictionary_member names.now) }
{
    let mut all = List::with_capacity(alloc, names.len())?;
    for name in names {
        all.push(dictionary_member(name.as_slice()))?;
    }
    Ok(all)
}

/// What a program has of its page's scope and of its names.
#[derive(Drop)]
pub struct Listing {
    /// The names of variables.
    pub variables: List<Text>,
    /// The names of procedures.
    pub procedures: List<Text>,
    /// The names of classes.
    pub classes: List<Text>,
    /// The variables.
    pub declared: List<Variable>,
    /// The constants.
    pub constants: List<Constant>,
    /// Of each name of the script, which member of a Dictionary it says.
    pub dictionary: List<Option<DictionaryMember>>,
}

/// What a program has of its names, and of its page's scope, which it takes over.
pub fn list_names(alloc: Global, page: Declarations, names: &Names) -> Result<Listing, Memory>
    ensures variables { IfOk result (λ listed. listed.variables
        ≡ spec.names_in spec.is_place (declarations_seen page)) }
    ensures procedures { IfOk result (λ listed. listed.procedures
        ≡ spec.names_in spec.is_procedure (declarations_seen page)) }
    ensures classes { IfOk result (λ listed. listed.classes
        ≡ spec.names_in spec.is_class (declarations_seen page)) }
    ensures declared { IfOk result (λ listed. listed.declared ≡ page.variables) }
    ensures constants { IfOk result (λ listed. listed.constants ≡ page.constants) }
    ensures dictionary { IfOk result (λ listed. listed.dictionary ≡ map names_spec.dictionary_member names.now) }
{
    let Declarations {
        names: page_names,
        meanings,
        variables: declared,
        constants,
        ..
    } = page;
    let listed = listed_names(alloc, page_names.into_texts(), meanings.as_slice());
    drop(meanings);
    match (listed, dictionary(alloc, names.as_slice())) {
        (Ok(listed), Ok(dictionary)) => {
            let ListedNames {
                variables,
                procedures,
                classes,
            } = listed;
            Ok(Listing {
                variables,
                procedures,
                classes,
                declared,
                constants,
                dictionary,
            })
        }
        (listed, dictionary) => {
            drop(listed);
            drop(dictionary);
            drop(declared);
            drop(constants);
            Err(Memory)
        }
    }
}

/// The variables and the constants that a scope declares.
pub fn declared_in(found: Declarations) -> (List<Variable>, List<Constant>)
    ensures variables { result.0 ≡ found.variables }
    ensures constants { result.1 ≡ found.constants }
{
    let Declarations {
        variables,
        constants,
        ..
    } = found;
    (variables, constants)
}
