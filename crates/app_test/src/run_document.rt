//! Reads the document of a run.
ghost use Rattle.app_arguments.specs.Statuses.{MayBeUnread};
ghost use Rattle.app_host.specs.FileSources.{IsReadOf};
ghost use Rattle.std.specs.Prelude.{◌≡◌, ◌⊎◌, ◌∷◌, [], Err, IfErr, IfOk};

use app_host::{System, World, open_noted, read_document};
use judge_session::EngineFault;

/// Opens the file of this name, and reads the document in it.
///
/// # Errors
/// `Read`, if the file can't be opened or read, and `Memory`.
pub fn read_run_document<Y: System>(
    world: &World<'_, Y>,
    path: &str,
) -> Result<Vec<u8>, EngineFault>
    ensures read { IfOk result (λ bytes. IsReadOf bytes.items (Y.Files.file_of world.now.files.now path.now).source) }
    ensures unread { result ≡ Err EngineFault.Read → MayBeUnread (Y.Files.file_of world.now.files.now path.now ∷ [])
        (Y.Files.file_of world.now.files.now path.now ∷ []) }
    ensures err { IfErr result (λ fault. (fault ≡ EngineFault.Memory) ⊎ (fault ≡ EngineFault.Read)) }
{
    let file = open_noted(world.alloc, world.files, path, None)?;
    read_document(world.alloc, file)
}
