//! Scripts and their output as text: where their bytes come from and go to, their lines, and what is written of each.
#![tactic(auto)]

mod answers;
mod asks;
mod block_line;
mod certificate_line;
mod hint_line;
mod line;
mod lists;
mod message_line;
mod peers;
mod pieces;
mod query_line;
mod range_text;
mod reader;
mod reading;
mod sends;
mod settings;
mod shown;
mod sink;
mod source;
mod status;
mod text;
mod word;
mod words;
mod writing;

pub use answers::push_answers;
pub use asks::push_asks;
pub use line::{Line, parse_line};
pub use lists::push_ack_list;
pub use message_line::{ScriptMessage, set_ticket};
pub use pieces::{push_cutoff, push_hex, push_processed};
pub use range_text::RangeText;
pub use reader::{LineError, ScriptReader};
pub use reading::{MAX_LINES, first_line, next_line};
pub use sends::push_sends;
pub use settings::{Settings, parse_settings};
pub use shown::{RangeTexts, push_ended, push_node};
pub use sink::{Output, Sink, Written, write_all};
pub use source::{Bytes, Input, Source};
pub use status::{Status, Why};
pub use text::{RemarkShown, push_block, push_fault, push_remark, push_tip};
pub use words::ParseError;
pub use writing::write_text;
