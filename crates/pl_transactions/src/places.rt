//! Savepoints by their names.

ghost use Rattle.std.specs.Prelude.{◌≡◌, ◌<◌, length, IfSome};
ghost use Rattle.pl_transactions.specs.Places.{place_in};

use pl_base::Name;

/// The place of the newest savepoint of this name.
pub(crate) fn place_of(names: &[Name], name: Name) -> Option<usize>
    ensures is { result ≡ place_in name names.now }
    ensures within { IfSome result (λ at. at < length names.now) }
{
    let mut rest = names;
    while let Some((newest, older)) = rest.split_last() {
        if *newest == name {
            return Some(older.len());
        }
        rest = older;
    }
    None
}
