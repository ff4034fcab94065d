//! What callers tell the actor and ask of it, the inbox in which their messages wait, and how they are answered, from what
//! stands.
#![tactic(auto)]

mod answering;
mod answers;
mod backlog;
mod dropping;
mod feedback;
mod identifier;
mod inbox;
mod letter;
mod message;
mod others;
mod query;
mod taken;
mod value;

pub use answering::answer;
pub use answers::{Answer, AnswerTable, Answered, Standing};
pub use backlog::Backlog;
pub use feedback::Feedback;
pub use identifier::Identifier;
pub use inbox::Inbox;
pub use letter::{Kind, Letter};
pub use message::Message;
pub use query::Query;
pub use taken::Taken;
pub use value::Value;
