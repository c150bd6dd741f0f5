//! Texts: as fields of public types, which contracts see as lists; and on their way, read whole up
//! to a limit, and written through a buffer of fixed size.
//!
//! ```
//! let name = Text::copied(alloc, b"door")?;
//! let mut buffer = TextBuffer::empty();
//! let mut text = TextWriter::new(&mut writer, &mut buffer);
//! text.put_text(name.as_slice());
//! text.put_number(1);
//! text.finish()?;
//! ```
#![tactic(auto)]

mod buffered;
mod direct;
mod fault;
mod lists;
mod reading;

pub use buffered::{TextBuffer, TextWriter};
pub use direct::write_out;
pub use fault::WriteFailed;
pub use lists::{Many, OneOrMore, Text};
pub use reading::{ReadFault, read_whole};
