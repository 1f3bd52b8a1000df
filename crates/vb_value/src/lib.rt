//! The base of every crate: lists, texts and boxes that contracts see as what they hold, the want of
//! memory, the values of the language with their conversions, the words of a script, and the files of a site
//! with their faults.
#![tactic(auto)]

mod application;
mod arguments;
mod boxed;
mod bytes;
mod conversion;
mod copied;
mod copying;
mod error_texts;
mod fault;
mod function;
mod limit;
mod lines;
mod list;
mod memory;
mod names;
mod number;
mod number_text;
mod numeric_text;
mod operator;
mod plain;
mod session;
mod site_file;
mod stop;
mod text;
mod text_limit;
mod token;
mod value;
mod weighing;

pub use application::{AppCall, AppReply};
pub use arguments::{check, is_empty, is_null, the_argument};
pub use boxed::Boxed;
pub use bytes::Bytes;
pub use conversion::{
    named_truth, number_value, to_bool, to_cur, to_int, to_long, to_number, to_str,
};
pub use copied::Copied;
pub use copying::{copy, copy_array};
pub use error_texts::error_text;
pub use fault::{VbError, VbFault};
pub use function::{PlainFn, StrFn};
pub use limit::LimitKind;
pub use lines::{ends_line, line_ends};
pub use list::List;
pub use memory::Memory;
pub use names::{among, is_word};
pub use number::{Number, as_currency, as_integer, as_long, whole_of_amount};
pub use numeric_text::{cur_of_text, is_blank};
pub use operator::{Op1, Op2};
pub use plain::{MOST_DEPTH, is_plain};
pub use session::{Pair, SessDict};
pub use site_file::{FaultKind, MOST_FILE_BYTES, MOST_FILES, MOST_SITE_BYTES, SiteFault, SiteFile};
pub use stop::Stop;
pub use text::{Text, Utf8Stop, fold};
pub use text_limit::{MOST_CHARACTERS, limited};
pub use token::{Keyword, Symbol, Token, TokenKind};
pub use value::{Array, ObjNo, Value};
pub use weighing::weight;
