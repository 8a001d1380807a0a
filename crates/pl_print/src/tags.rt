//! Tags: what is printed of a command that is done (PostgreSQL manual, "Message Formats",
//! CommandComplete).

ghost use Rattle.std.specs.Prelude.{◌≡◌, IfOk};
ghost use Rattle.pl_print.specs.Tags.{tag_bytes};

use crate::Tag;
use pl_base::{Bytes, Memory};
use std::alloc::{AllocError, Global};

/// The tag on a line of its own.
pub fn tag(alloc: Global, tag: &Tag) -> Result<Bytes, Memory>
    ensures { IfOk result (λ bytes. bytes ≡ tag_bytes tag.now) }
{
    Ok(Bytes::from_vec(line_of(alloc, tag)?))
}

fn line_of(alloc: Global, tag: &Tag) -> Result<Vec<u8>, AllocError>
    ensures { IfOk result (λ line. line.items ≡ tag_bytes tag.now) }
{
    match tag {
        Tag::Insert(rows) => Ok(format!(in alloc; "INSERT 0 {rows}\n")?.into_bytes()),
        Tag::Update(rows) => Ok(format!(in alloc; "UPDATE {rows}\n")?.into_bytes()),
        Tag::Delete(rows) => Ok(format!(in alloc; "DELETE {rows}\n")?.into_bytes()),
        Tag::CreateTable => Vec::from_slice(alloc, b"CREATE TABLE\n"),
        Tag::CreateFunction => Vec::from_slice(alloc, b"CREATE FUNCTION\n"),
        Tag::CreateProcedure => Vec::from_slice(alloc, b"CREATE PROCEDURE\n"),
        Tag::CreateTrigger => Vec::from_slice(alloc, b"CREATE TRIGGER\n"),
        Tag::DropTable => Vec::from_slice(alloc, b"DROP TABLE\n"),
        Tag::DropFunction => Vec::from_slice(alloc, b"DROP FUNCTION\n"),
        Tag::DropProcedure => Vec::from_slice(alloc, b"DROP PROCEDURE\n"),
        Tag::DropTrigger => Vec::from_slice(alloc, b"DROP TRIGGER\n"),
        Tag::Do => Vec::from_slice(alloc, b"DO\n"),
        Tag::Call => Vec::from_slice(alloc, b"CALL\n"),
        Tag::Begin => Vec::from_slice(alloc, b"BEGIN\n"),
        Tag::StartTransaction => Vec::from_slice(alloc, b"START TRANSACTION\n"),
        Tag::Commit => Vec::from_slice(alloc, b"COMMIT\n"),
        Tag::Rollback => Vec::from_slice(alloc, b"ROLLBACK\n"),
        Tag::Savepoint => Vec::from_slice(alloc, b"SAVEPOINT\n"),
        Tag::Release => Vec::from_slice(alloc, b"RELEASE\n"),
    }
}
