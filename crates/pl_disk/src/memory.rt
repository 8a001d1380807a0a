//! A host and a script in memory. The host keeps a record of what its calls changed, and from it
//! follows what a crash after each of them may leave.

mod counts;
mod files;
mod host;
mod image_after;
mod note;
mod script;
#[cfg(test)]
mod tests;

pub(crate) use counts::one_more;
pub use host::MemoryHost;
pub use image_after::Pick;
pub use script::MemorySource;
