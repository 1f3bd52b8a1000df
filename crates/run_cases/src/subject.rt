//! What each file of cases is tried on.

use crate::acts::{write_counted, write_plain, write_replied, write_spent};
use crate::pages::write_answered;
use case_files::{Answer, Subject};

/// What the cases of a file are tried on: scripts, or pages with requests.
pub enum Cases {
    Written,
    Counted,
    Replied,
    Spent,
    Answered,
}

impl Subject for Cases {
    fn answer(&self, case: &str, out: &mut Answer) {
        match self {
            Cases::Written => write_plain(out, case),
            Cases::Counted => write_counted(out, case),
            Cases::Replied => write_replied(out, case),
            Cases::Spent => write_spent(out, case),
            Cases::Answered => write_answered(out, case),
        }
    }
}
