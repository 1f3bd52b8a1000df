//! Answers: what a page says of its answer, call by call, and the bytes that a client gets (RFC 9112).
#![tactic(auto)]

mod bytes;
mod cookie;
mod cookie_size;
mod cookie_text;
mod cookies;
mod draft;
mod field;
mod finish;
mod fixed;
mod head;
mod head_size;
mod headers;
mod laws;
mod status;
mod stop;
mod text;

pub use bytes::answer_bytes;
pub use cookie::CookiePart;
pub use draft::{Draft, MOST_BODY};
pub use fixed::{Unavailable, not_allowed_answer, refusal, status_answer, unavailable_answer};
pub use laws::{drafts_finish_sound, fixed_answers_are_sound, heads_are_whole, heads_stay_small};
pub use stop::DraftStop;
