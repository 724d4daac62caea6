//! The words and the texts of the program: what the command line asks for, the declarations of a source file, statuses, and the lines
//! of refusals. None of these texts breaks its line.
mod command_line;
mod refusals;
mod refused_functions;
mod status;
mod text_stop;
mod texts;
mod words;

pub use command_line::asked;
pub use refusals::{write_number, write_refusal_line, write_refused, write_stop};
pub use status::Status;
pub use text_stop::{TextStop, is_memory, unread};
pub use texts::{LIMIT, declarations};
pub use words::{Asked, Command, Work, asks_for_source, work_asked};
