//! What a command says of its input: a text, made whole and sent by one call, so that nothing is written
//! if memory runs out.
ghost use Rattle.std.specs.Prelude.{◌≡◌, IfOk, IfErr};
ghost use Rattle.cms_tlv.specs.declared.fault.Fault.TheVariants.{OutOfMemory};

use cms_tlv::Fault;
use std::alloc::AllocError;

/// A text, and the exit status that goes with it.
#[derive(Drop)]
pub(crate) struct Answer {
    pub(crate) text: Vec<u8>,
    pub(crate) status: u8,
}

impl Answer {
    /// A listing with status 0, or that there was no memory for it.
    pub(crate) fn of_listing(text: Result<String, AllocError>) -> Result<Answer, Fault>
        ensures ok { IfOk result (λ a. a.status ≡ 0) }
        ensures err { IfErr result (λ e. e ≡ OutOfMemory) }
    {
        match text {
            Ok(text) => Ok(Answer {
                text: text.into_bytes(),
                status: 0,
            }),
            Err(_) => Err(Fault::OutOfMemory),
        }
    }
}
