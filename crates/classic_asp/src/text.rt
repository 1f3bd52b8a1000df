//! What the program itself prints.

use asp_host::Status;
use vb_value::Text;

/// What `--help` prints.
pub const HELP: &str = "Runs classic ASP pages.

usage:
  classic_asp check SITE      reads all of a site, and writes how many pages and files it has or its first fault
  classic_asp get SITE PATH   runs a request for PATH, and writes the body of its answer
  classic_asp replay SITE     runs the requests of the recording on standard input, and writes their answers;
                              --journal adds what happened, line by line; --strict-lock lets readers wait for a
                              lock of the Application object too
  classic_asp serve SITE --requests N [--workers N] [--port P] [--strict-lock]
                              serves SITE over HTTP at 127.0.0.1 until N requests have come, and writes nothing;
                              --workers says how many connections at a time, --port at which port
  classic_asp gen N           makes a recording of N requests, runs them, and writes how many requests, answers and
                              sessions there were and the total that was counted; --journal adds what happened
  classic_asp --help          writes this text
  classic_asp --version       writes the program's name and version

SITE is a folder. PATH is the target of a request, as /p.asp, /about/ or /find.asp?name=cup. gen makes 1 to 10000
requests, and serve takes 1 to 100000. There are 1 to 16 workers, 4 if none are said, and port 8080 is meant if none is.

exit status: 0 done, 1 out of memory, 2 usage, 3 the site is refused, 4 read fault, 5 write fault,
6 the recording is refused, 7 the journal is full, 8 the application did not begin, 9 accept fault";

/// What `--version` prints.
pub const VERSION: &str = "classic_asp 0.1.0";

/// Writes a text and a line end to standard output.
pub fn print_line<R: Print>(rt: &R, text: &str) -> Status {
    match rt.println(text) {
        Ok(()) => Status::Ok,
        Err(_) => Status::WriteFault,
    }
}

/// Writes what there is to say, if there is something, and a line end to standard error.
///
/// Nothing is left to try where that fails.
pub fn tell<R: Eprint + AllocGlobal>(rt: &R, text: &Text) {
    if text.is_empty() {
        return;
    }
    if let Ok(line) = text.to_string(rt.alloc()) {
        let _ = rt.eprintln(line.as_str());
    }
}
