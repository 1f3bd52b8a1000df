//! A site of pages, and what a host of it tells.

use crate::story::write_story;
use asp_io::{MemFolder, SureFolder};
use asp_run::PlainRunner;
use asp_site::Site;
use case_files::{Answer, CaseStop};
use site_load::load;
use std::sync::Wait;
use vb_value::{Bytes, List, SiteFile, Text};

/// The pages without sessions: one that writes, one that errs in its second line, one that errs behind what it flushed, one
/// that reads a form, one that leads elsewhere, and one whose answer has no content.
const WRITES: &str = "<%@ ENABLESESSIONSTATE=False %>A<%= 1 + 2 %>B";

const ERRS: &str = "<%@ ENABLESESSIONSTATE=False %>\n<% x = 1 \\ 0 %>";

const FLUSHES: &str =
    "<%@ ENABLESESSIONSTATE=False %>a<% Response.Flush : Response.Write 1 : Err.Raise 5 %>";

const READS: &str =
    "<%@ ENABLESESSIONSTATE=False %><%= Request.Form(\"a\") %>;<%= Request.TotalBytes %>";

const LEADS: &str = "<%@ ENABLESESSIONSTATE=False %><% Response.Redirect \"/p.asp?b=1&c\" %>";

const EMPTY: &str = "<%@ ENABLESESSIONSTATE=False %><% Response.Status = \"204 No Content\" %>hi";

/// A page that counts the requests of its session.
const COUNTS: &str = "<% Session(\"n\") = Session(\"n\") + 1 : Response.Write Session(\"n\") %>";

fn push_file(out: &mut Answer, files: &mut List<SiteFile>, path: &str, text: &str) {
    let (Ok(path), Ok(bytes)) = (
        Text::from_str(out.alloc(), path),
        Bytes::from_slice(out.alloc(), text.as_bytes()),
    ) else {
        return out.stop(CaseStop::Memory);
    };
    if files.push(SiteFile { path, bytes }).is_err() {
        out.stop(CaseStop::Memory);
    }
}

fn files(out: &mut Answer) -> List<SiteFile> {
    let mut files = List::new(out.alloc());
    push_file(out, &mut files, "/a.css", "p {}");
    push_file(out, &mut files, "/away.asp", LEADS);
    push_file(out, &mut files, "/empty.asp", EMPTY);
    push_file(out, &mut files, "/errs.asp", ERRS);
    push_file(out, &mut files, "/flushes.asp", FLUSHES);
    push_file(out, &mut files, "/form.asp", READS);
    push_file(out, &mut files, "/inc/part.inc", "x");
    push_file(out, &mut files, "/n.asp", COUNTS);
    push_file(out, &mut files, "/p.asp", WRITES);
    files
}

/// The folder of these files, whose reads never fail.
fn folder(out: &mut Answer) -> Option<MemFolder> {
    let files = files(out);
    match SureFolder::new(files) {
        Some(folder) => Some(MemFolder::new(folder, List::new(out.alloc()))),
        None => None,
    }
}

fn site(out: &mut Answer) -> Option<Site> {
    match folder(out) {
        Some(mut folder) => load(out.alloc(), &mut folder).ok(),
        None => None,
    }
}

/// Tells the story of a new host of the site.
pub fn write_of_pages<Rt: Wait>(rt: &Rt, out: &mut Answer, steps: &str, first: usize) {
    let runner = PlainRunner { alloc: out.alloc() };
    match site(out) {
        Some(site) => write_story(rt, out, runner, site, steps, first),
        None => out.stop(CaseStop::Unreadable),
    }
}
