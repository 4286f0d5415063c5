//! The command line of csa: the commands, their options with ranges and defaults, and which words are refused.
#![tactic(auto)]

mod command;
mod inputs;
mod kinds;
mod name;
mod option_name;
mod option_word;
mod refusal;
mod scan;
mod settings;
mod value;
mod verb;
mod words;

pub use command::{AnalyzeWords, Command, FlowWords, GenerateWords, ReplayWords};
pub use kinds::Kinds;
pub use refusal::WordsRefusal;
pub use words::words_of;
