//! Texts as the web writes them, and the paths of requests.

use asp_site::media_type;
use asp_text::{PathStop, html_encode, normal_path, url_encode};
use case_files::{Answer, CaseStop, Subject, read_text};
use vb_value::{Memory, Text};

/// Texts behind `html: ` and `url: `, each as HTML and as a URL has it, paths of requests behind `path: `, each with the
/// path that it names, or why it names none, and paths of files behind `type: `, each with its media type.
pub struct Web;

impl Subject for Web {
    fn answer(&self, case: &str, out: &mut Answer) {
        let (call, written) = case.split_once(": ").unwrap_or((case, ""));
        match read_text(out.alloc(), written) {
            Ok(text) if call == "path" => write_path(out, text.as_str().as_bytes()),
            Ok(text) => match Text::from_str(out.alloc(), text.as_str()) {
                Ok(text) => write_called(out, call, &text),
                Err(_) => out.stop(CaseStop::Memory),
            },
            Err(stop) => out.stop(stop),
        }
    }
}

fn write_called(out: &mut Answer, call: &str, text: &Text) {
    match call {
        "html" => {
            let encoded = html_encode(out.alloc(), text);
            write_made(out, encoded);
        }
        "url" => {
            let encoded = url_encode(out.alloc(), text);
            write_made(out, encoded);
        }
        "type" => out.put(media_type(text.as_slice())),
        _ => out.stop(CaseStop::Unreadable),
    }
}

fn write_made(out: &mut Answer, made: Result<Text, Memory>) {
    match made {
        Ok(text) => out.text(text.as_slice()),
        Err(_) => out.stop(CaseStop::Memory),
    }
}

fn write_path(out: &mut Answer, target: &[u8]) {
    match normal_path(out.alloc(), target) {
        Ok(path) => out.text(path.as_slice()),
        Err(PathStop::Memory) => out.stop(CaseStop::Memory),
        Err(stop) => out.debug(&stop),
    }
}
