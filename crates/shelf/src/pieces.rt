//! Several pieces, one after another.

ghost use Rattle.std.specs.List.{concat};
ghost use Rattle.shelf.specs.Storage.{Has};
ghost use Rattle.shelf.specs.Calls.{Adds};

use crate::shelf::{Shelf, ShelfError};
use vs_bytes::{Bytes, Text};

/// Adds pieces at the end of a file, each by one call.
///
/// After a refusal the first bytes of all of them may stand there.
pub fn append_all<S: Shelf>(shelf: &mut S, name: &Text, pieces: &[Bytes]) -> Result<(), ShelfError>
    requires there { Has (S.seen shelf.old).files name.now }
    ensures adds { Adds (S.seen shelf.old) (S.seen shelf.new) name.now (concat pieces.now) result }
{
    for piece in pieces {
        match shelf.append(name, piece.as_slice()) {
            Ok(()) => {}
            Err(refused) => return Err(refused),
        }
    }
    Ok(())
}
