//! Procedures, classes and whole scripts as words.
ghost use Rattle.std.specs.Prelude.{◌≡◌, ◌∷◌, ◌++◌, [], map, codes};
ghost use Rattle.vb_value.specs.Outcome.{Adds, Gives};
ghost use Rattle.vb_print.specs.Words.{keyword, listed, quoted, name as name_word};
ghost use Rattle.vb_print.specs.Statements.{access_words, block_words, declared_words, line_end};
ghost use Rattle.vb_print.specs.Units as spec;
ghost use Rattle.vb_print.specs.Units.{print_of};

use crate::declarations::{print_access, print_parameters, print_variables};
use crate::parts::{print_end, print_line_end};
use crate::statements::{print_body, print_statement};
use crate::words::{print_explicit_word, print_keyword, print_name, print_property_word};
use std::alloc::Global;
use vb_syntax::{
    Access, Class, ClassMember, Declared, FieldAccess, Item, Parameter, Procedure, ProcedureKind,
    Property, PropertyKind, Unit,
};
use vb_value::{Keyword, List, Memory, Text, Token};

/// The keyword of a procedure.
fn procedure_word(kind: ProcedureKind) -> Keyword
    ensures { result ≡ spec.procedure_word kind }
{
    match kind {
        ProcedureKind::Sub => Keyword::Sub,
        ProcedureKind::Function => Keyword::Function,
    }
}

/// The keyword of a kind of property.
fn property_word(kind: PropertyKind) -> Keyword
    ensures { result ≡ spec.property_word kind }
{
    match kind {
        PropertyKind::Get => Keyword::Get,
        PropertyKind::Let => Keyword::Let,
        PropertyKind::Set => Keyword::Set,
    }
}

/// The keyword before the fields of a class.
fn field_word(access: FieldAccess) -> Keyword
    ensures { result ≡ spec.field_word access }
{
    match access {
        FieldAccess::Dim => Keyword::Dim,
        FieldAccess::Public => Keyword::Public,
        FieldAccess::Private => Keyword::Private,
    }
}

/// The keyword of an access.
fn access_word(access: Access) -> Keyword
    ensures { result ≡ spec.access_word access }
{
    match access {
        Access::Public => Keyword::Public,
        Access::Private => Keyword::Private,
    }
}

/// Adds a name, parameters and the end of the line.
fn print_signature(
    words: &mut List<Token>,
    line: u32,
    name: &Text,
    parameters: &List<Parameter>,
) -> Result<(), Memory>
    ensures { Adds result words.old words.new (name_word line name.now
        ∷ spec.parameters_words line parameters.now ++ line_end line ∷ []) }
{
    print_name(words, line, name)?;
    print_parameters(words, line, parameters.as_slice())?;
    print_line_end(words, line)
}

/// Adds a procedure.
fn print_procedure(words: &mut List<Token>, found: &Procedure) -> Result<(), Memory>
    ensures { Adds result words.old words.new (spec.procedure_words found.now) }
{
    print_access(words, found.line, found.access)?;
    print_keyword(words, found.line, procedure_word(found.kind))?;
    print_signature(words, found.line, &found.name, &found.parameters)?;
    print_body(words, found.line, &found.body)?;
    print_end(words, found.line, procedure_word(found.kind))
}

/// Adds a property as far as its kind.
fn print_property_head(
    words: &mut List<Token>,
    line: u32,
    access: Option<Access>,
    kind: PropertyKind,
) -> Result<(), Memory>
    ensures { Adds result words.old words.new (access_words line access
        ++ quoted line (codes "Property") ∷ keyword line (spec.property_word kind) ∷ []) }
{
    print_access(words, line, access)?;
    print_property_word(words, line)?;
    print_keyword(words, line, property_word(kind))
}

/// Adds a property.
fn print_property(words: &mut List<Token>, found: &Property) -> Result<(), Memory>
    ensures { Adds result words.old words.new (spec.property_words found.now) }
{
    print_property_head(words, found.line, found.access, found.kind)?;
    print_signature(words, found.line, &found.name, &found.parameters)?;
    print_body(words, found.line, &found.body)?;
    print_keyword(words, found.line, Keyword::End)?;
    print_property_word(words, found.line)
}

/// Adds a keyword and declared variables behind it.
fn print_fields(
    words: &mut List<Token>,
    line: u32,
    word: Keyword,
    fields: &List<Declared>,
) -> Result<(), Memory>
    ensures { Adds result words.old words.new
        (keyword line word ∷ listed line (map (declared_words line) fields.now)) }
{
    print_keyword(words, line, word)?;
    print_variables(words, line, fields.as_slice())
}

/// Adds a member of a class.
fn print_member(words: &mut List<Token>, member: &ClassMember) -> Result<(), Memory>
    ensures { Adds result words.old words.new (spec.member_words member.now) }
{
    match member {
        ClassMember::Fields {
            line,
            access,
            fields,
        } => { print_fields(words, *line, field_word(*access), fields) }
        ClassMember::Method(found) => print_procedure(words, found),
        ClassMember::Property(found) => print_property(words, found),
    }
}

/// Adds the members of a class, each with the end of a line behind it.
fn print_members(
    words: &mut List<Token>,
    line: u32,
    members: &List<ClassMember>,
) -> Result<(), Memory>
    ensures { Adds result words.old words.new (block_words line (map spec.member_words members.now)) }
{
    for member in members.as_slice() {
        print_member(words, member)?;
        print_line_end(words, line)?;
    }
    Ok(())
}

/// Adds a class.
fn print_class(words: &mut List<Token>, found: &Class) -> Result<(), Memory>
    ensures { Adds result words.old words.new (spec.class_words found.now) }
{
    print_keyword(words, found.line, Keyword::Class)?;
    print_name(words, found.line, &found.name)?;
    print_line_end(words, found.line)?;
    print_members(words, found.line, &found.members)?;
    print_end(words, found.line, Keyword::Class)
}

/// Adds an item of a script.
fn print_item(words: &mut List<Token>, item: &Item) -> Result<(), Memory>
    ensures { Adds result words.old words.new (spec.item_words item.now) }
{
    match item {
        Item::Statement(found) => print_statement(words, found),
        Item::Variables {
            line,
            access,
            variables,
        } => { print_fields(words, *line, access_word(*access), variables) }
        Item::Procedure(found) => print_procedure(words, found),
        Item::Class(found) => print_class(words, found),
    }
}

/// Adds the items of a script, each with the end of a line behind it.
fn print_items(words: &mut List<Token>, items: &List<Item>) -> Result<(), Memory>
    ensures { Adds result words.old words.new (block_words 1 (map spec.item_words items.now)) }
{
    for item in items.as_slice() {
        print_item(words, item)?;
        print_line_end(words, 1)?;
    }
    Ok(())
}

/// Adds `Option Explicit` and the end of a line, where a script has it.
fn print_option(words: &mut List<Token>, explicit: bool) -> Result<(), Memory>
    ensures { Adds result words.old words.new (spec.option_words explicit) }
{
    if explicit {
        print_keyword(words, 1, Keyword::Option)?;
        print_explicit_word(words, 1)?;
        print_line_end(words, 1)?;
    }
    Ok(())
}

/// The words of a script. Each word of a statement stands in its line, and each name in brackets. It recurses
/// once for each statement and each expression inside another.
#[tactic(auto, unfolding(crate::specs::Units::print_of))]
pub fn print(alloc: Global, unit: &Unit) -> Result<List<Token>, Memory>
    ensures { Gives result (print_of unit.now) }
{
    let mut words = List::new(alloc);
    print_option(&mut words, unit.option_explicit)?;
    print_items(&mut words, &unit.items)?;
    Ok(words)
}
