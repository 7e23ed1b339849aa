//! Why a server gives no report.
use judge_session::EngineFault;
use std::alloc::{AllocError, AllocFailed};

/// What kept a server from its report. None of these says anything about what was read.
#[derive(Debug, Drop)]
pub enum ServiceFault {
    /// The document could not be read, the report not be written, or memory ran out.
    Engine(EngineFault),
    /// A place could not be bound, or a stream not be accepted.
    Network,
    /// Not all streams had connected in time.
    Late,
    /// The session could not be kept, or the file of the port not be written.
    Unkept,
}

impl From<EngineFault> for ServiceFault {
    ghost use Rattle.std.specs.Prelude.{◌≡◌};
    ghost use Rattle.app_serve.specs.declared.service_fault.ServiceFault.TheVariants.{Engine};

    ghost from_gives = { λ engine fault. fault ≡ Engine engine };

    fn from(fault: EngineFault) -> ServiceFault {
        ServiceFault::Engine(fault)
    }
}

impl From<AllocError> for ServiceFault {
    ghost use Rattle.app_serve.specs.declared.service_fault.ServiceFault.TheVariants.{Engine};
    ghost use Rattle.judge_session.specs.declared.fault.EngineFault.TheVariants.{Memory};
    ghost use Rattle.std.specs.Prelude.{◌≡◌};

    ghost from_gives = { λ _ fault. fault ≡ Engine Memory };

    fn from(_e: AllocError) -> ServiceFault {
        ServiceFault::Engine(EngineFault::Memory)
    }
}

impl<T: Drop> From<AllocFailed<T>> for ServiceFault {
    ghost use Rattle.app_serve.specs.declared.service_fault.ServiceFault.TheVariants.{Engine};
    ghost use Rattle.judge_session.specs.declared.fault.EngineFault.TheVariants.{Memory};
    ghost use Rattle.std.specs.Prelude.{◌≡◌};

    ghost from_gives = { λ _ fault. fault ≡ Engine Memory };

    fn from(_e: AllocFailed<T>) -> ServiceFault {
        ServiceFault::Engine(EngineFault::Memory)
    }
}
