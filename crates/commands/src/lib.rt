//! The commands by which people and programs drive a publisher, a line each: how a line is cut into words, numbers and
//! texts, which command it spells, and how an answer is written. What a command does is not said here: `lines_demo`
//! plays it on plain state, `console` on a publisher with threads. Here is also what the programs that lines drive have
//! in common: the words of their command lines, their exit statuses, and how `main` learns how a session ended.
//!
//! ```
//! let (line, rest) = split_line(b"request a 3\r\nclose\n");   // b"request a 3\r" and b"close\n"
//! let command = Command::parse(strip_return(line));          // Command::Request, of the name `a` and 3
//! write_line(&mut writer, &mut line_buffer, Reply::Done)?;   // ok
//! ```
#![tactic(auto)]

mod arguments;
mod command;
mod excerpt;
mod form;
mod line;
mod mistake;
mod number;
mod reply;
mod status;
mod text_bytes;
mod verdict;
mod word;
mod writing;

pub use arguments::command_words;
pub use command::Command;
pub use excerpt::Excerpt;
pub use form::{Form, Part};
pub use line::{LONGEST_LINE, split_at_byte, split_line, strip_return};
pub use mistake::Mistake;
pub use number::{parse_code, parse_digits, parse_number, parse_signed};
pub use reply::Reply;
pub use status::{FAULT, GONE, WRONG_USE};
pub use text_bytes::TextBytes;
pub use verdict::Verdict;
pub use word::{parse_text, split_word};
pub use writing::{OutputFault, write_line, write_whole};
