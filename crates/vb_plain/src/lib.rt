//! An evaluator of scripts: the rules of each construct, and the run of an act.
#![tactic(auto)]

mod acts;
mod assigning;
mod blocks;
mod calling;
mod calls;
mod conditions;
mod counted;
mod executing;
mod expressions;
mod growing;
mod heads;
mod lent;
mod lent_arrays;
mod lent_calls;
mod lent_operands;
mod lent_places;
mod lent_texts;
mod making;
mod names;
mod page_end;
mod page_members;
mod path_values;
mod plain;
mod reading;
mod releases;
mod repeating;
mod rules;
mod run;
mod selecting;
mod statement;
mod statements;
mod target_paths;
mod targets;

pub use run::{fresh_playing, run_act, run_act_in};
