//! The program: it reads the folder of an old site and tells each place that the host can't run or runs differently,
//! with the way out, by the table that its first word names.
#![tactic(auto)]

mod finding;
mod others;
mod pages;
mod paths;
mod reach;
mod reading;
mod refusing;
mod report;
mod scanning;
mod stop;
mod survey;
mod walk;

use file_survey::Table;
use std::io::ErrorKind;
use std::process::ExitCode;
use std::rt::Runtime;
use std::{env, fs};
use stop::SurveyStop;
use survey::survey_folder;

fn main(rt: HostRuntime) -> ExitCode {
    ExitCode::from(run(&rt))
}

/// Runs the words of the command line and gives the exit status. Why a survey ended early goes to standard error.
fn run<R: Runtime + AllocGlobal>(rt: &R) -> u8 {
    let words = match command_words(rt) {
        Ok(words) => words,
        Err(stop) => return tell(rt, &stop, "", ""),
    };
    let [table, site] = words.as_slice() else {
        return tell(rt, &SurveyStop::Usage, "", "");
    };
    match survey_site(rt, table.as_str(), site.as_str()) {
        Ok(()) => 0,
        Err(stop) => tell(rt, &stop, table.as_str(), site.as_str()),
    }
}

/// Writes what there is to say to standard error, and gives the exit status. Nothing is left to try where that fails.
fn tell<R: Eprint + AllocGlobal>(rt: &R, stop: &SurveyStop, table: &str, site: &str) -> u8 {
    if let Ok(text) = stop.text(rt.alloc(), table, site) {
        let _ = rt.eprintln(text.as_str());
    }
    stop.code()
}

/// Surveys the site by the table at this path, and writes what it tells.
fn survey_site<R: Runtime + AllocGlobal>(
    rt: &R,
    table: &str,
    site: &str,
) -> Result<(), SurveyStop> {
    let table = read_table(rt, table)?;
    let text = survey_folder(rt, &table, site)?;
    match rt.print(text.as_str()) {
        Ok(()) => Ok(()),
        Err(_) => Err(SurveyStop::Unwritten),
    }
}

/// The words behind the program's own name.
fn command_words<R: Runtime + AllocGlobal>(rt: &R) -> Result<Vec<String>, SurveyStop> {
    let mut words = Vec::new(rt.alloc());
    let args = match env::args(rt) {
        Ok(args) => args,
        Err(error) if error.kind() == ErrorKind::OutOfMemory => return Err(SurveyStop::Memory),
        Err(_) => return Err(SurveyStop::Usage),
    };
    for word in args.skip(1) {
        words.push(word)?;
    }
    Ok(words)
}

fn read_table<R: Runtime + AllocGlobal>(rt: &R, path: &str) -> Result<Table, SurveyStop> {
    match fs::read_to_string(rt, path) {
        Ok(text) => Ok(Table::read(rt.alloc(), text.as_str())?),
        Err(error) if error.kind() == ErrorKind::OutOfMemory => Err(SurveyStop::Memory),
        Err(_) => Err(SurveyStop::NoTable),
    }
}
