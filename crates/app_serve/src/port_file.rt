//! Writes the ports of a server into a file.
ghost use Rattle.app_arguments.specs.Views.{text_view};
ghost use Rattle.app_serve.specs.declared.service_fault.ServiceFault.TheVariants as faults;
ghost use Rattle.std.specs.Prelude.{◌≡◌, ◌≢◌, ◌⊎◌, IfErr, None};

use super::host::Host;
use super::service_fault::ServiceFault;
use app_host::{FileSource, replace_file};
use judge_session::EngineFault;
use std::alloc::AllocError;
use std::io;
use std::io::ErrorKind;

/// The lines of the ports that are bound; none, if one isn't known.
fn ports_text<F, N>(host: &Host<'_, F, N>) -> Result<Option<String>, AllocError> {
    let Some(port) = host.peers.port() else {
        return Ok(None);
    };
    if host.service.watchers == 0 {
        return Ok(Some(format!(in host.alloc; "{port}\n")?));
    }
    match host.peers.watchers_port() {
        Some(other) => Ok(Some(format!(in host.alloc; "{port}\n{other}\n")?)),
        None => Ok(None),
    }
}

/// Notes why the file of this name, or the new one that is to have it, couldn't be written.
fn note_unfiled<F, N>(host: &Host<'_, F, N>, new: &str, name: &str, error: &io::Error) {
    let shown = if error.kind() == ErrorKind::AlreadyExists {
        new
    } else {
        name
    };
    host.peers.note_unfiled(host.alloc, shown, error);
}

/// Writes into the file of the port, if there is to be one, on which ports the streams and watchers are waited for, a
/// line each. Whoever reads that file sees both lines, or what stood there before.
///
/// # Errors
/// `Unkept`, if it can't be written, which is noted, and `Memory`.
pub(crate) fn write_port_file<F: FileSource, N>(host: &Host<'_, F, N>) -> Result<(), ServiceFault>
    ensures { IfErr result (λ fault. ((fault ≡ faults.Unkept) × (text_view host.now.service.now.port_file ≢ None))
        ⊎ (fault ≡ faults.Engine EngineFault.Memory)) }
{
    let Some(name) = host.service.port_file else {
        return Ok(());
    };
    let new = format!(in host.alloc; "{name}.new")?;
    let Some(text) = ports_text(host)? else {
        return Err(ServiceFault::Unkept);
    };
    if let Err(error) = replace_file(host.files, &new, name, text.as_bytes()) {
        note_unfiled(host, &new, name, &error);
        return Err(ServiceFault::Unkept);
    }
    Ok(())
}
