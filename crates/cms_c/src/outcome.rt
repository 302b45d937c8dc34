//! What a call reports to C.
//!
//! That the room is too small is a status of its own, so that status 0 always means that the octets are
//! there. The name of a reason is in the outcome, so that no caller needs a table of names.
ghost use Rattle.std.specs.Prelude.{◌≡◌, ◌≤◌, length, [], true, false, if◌then◌else◌};
ghost use Rattle.cms_c.specs.Outcomes.{IsDelivered, IsName, IsReported, Says, SaysFault, SaysFaultOf, SaysLack, SaysReport, SaysSameFault};

use cms_canon::SameFault;
use cms_tlv::Fault;

/// How many octets the name in an outcome has, with the zeros at its end.
pub const NAME_LEN: usize = 24;

const DONE: u32 = 0;

const DIFFERENT: u32 = 1;

const REFUSED: u32 = 3;

const OUT_OF_MEMORY: u32 = 5;

const ROOM_TOO_SMALL: u32 = 6;

/// Why octets of a signer, rows or findings by digests are not handed over.
#[derive(Clone, Copy)]
pub(crate) enum Lack {
    /// The message is refused, or memory ran out.
    Fault(Fault),
    /// The message is a request, or a response without a token.
    NoSignedData,
    /// No signer or countersignature is at the path.
    NoSigner,
    /// The signer has no signed attributes, and there is no content.
    NoContent,
    /// The octets are not a TSTInfo in DER.
    NoTstInfo,
    /// A digest is asked for that is not given.
    NoDigest,
    /// The content is needed itself, and not only by its digests.
    NeedsContent,
}

/// What became of a call.
#[repr(C)]
#[derive(Drop)]
pub struct Outcome {
    /// 0: done. 1: the messages are different. 3: refused. 5: out of memory. 6: the room is too
    /// small.
    pub status: u32,
    /// Why it is refused: 1 to 19 for E1 to E19, 101 to 107 if there are no such octets, or
    /// digests do not suffice; else 0.
    pub reason: u32,
    /// How many octets of the message were taken if it is refused by one of E1 to E19; else 0.
    pub at: u64,
    /// The number that the call returns: for status 0 how many octets, findings or rows were written, say,
    /// and for status 6 how many there are. If one of two messages is refused, which: 1 or 2. Else 0.
    pub octets: u64,
    /// The name of the reason in ASCII, with zeros after it.
    pub name: [u8; NAME_LEN],
}

impl Outcome {
    fn new(status: u32) -> Outcome
        ensures { Says result status 0 0 0 [] }
    {
        Outcome {
            status,
            reason: 0,
            at: 0,
            octets: 0,
            name: [0; NAME_LEN],
        }
    }

    /// A refusal, or else out of memory.
    pub(crate) fn of_fault(fault: Fault) -> Outcome
        ensures { SaysFault fault result }
    {
        Outcome::of_fault_in(0, fault)
    }

    /// A refusal of the message with this number, or else out of memory.
    fn of_fault_in(message: u64, fault: Fault) -> Outcome
        ensures { SaysFaultOf message fault result }
    {
        match fault {
            Fault::Refused { reason, at } => {
                let mut outcome = Outcome::refused(u32::from(reason.number()), at, reason.name());
                outcome.octets = message;
                outcome
            }
            _ => Outcome::new(OUT_OF_MEMORY),
        }
    }

    /// Writes the octets to the beginning of `output` as `delivered` does, and if they fit says why what
    /// comes after them is refused.
    pub(crate) fn reported(octets: &[u8], refusal: Option<Fault>, output: &mut [u8]) -> Outcome
        ensures { IsReported refusal octets.now output.old output.new result }
    {
        let fits = Outcome::delivered(octets, output).status == DONE;
        Outcome::counting_up_to(octets.len() as u64, fits, refusal)
    }

    /// So many octets were written, or did not fit; if they were, why what comes after them is refused.
    pub(crate) fn counting_up_to(octets: u64, fits: bool, refusal: Option<Fault>) -> Outcome
        ensures fits { fits ≡ true → SaysReport refusal octets result }
        ensures lacks_room { fits ≡ false → Says result 6 0 0 octets [] }
    {
        match refusal {
            Some(fault) if fits => Outcome::of_fault_in(octets, fault),
            _ => Outcome::counting(octets, fits),
        }
    }

    /// Whether two messages are the same.
    pub(crate) fn of_comparison(same: bool) -> Outcome
        ensures { Says result (if same then 0 else 1) 0 0 0 [] }
    {
        Outcome::new(if same { DONE } else { DIFFERENT })
    }

    pub(crate) fn of_same_fault(fault: SameFault) -> Outcome
        ensures { SaysSameFault fault result }
    {
        match fault {
            SameFault::First(fault) => Outcome::of_fault_in(1, fault),
            SameFault::Second(fault) => Outcome::of_fault_in(2, fault),
            SameFault::OutOfMemory => Outcome::new(OUT_OF_MEMORY),
        }
    }

    pub(crate) fn of_lack(lack: Lack) -> Outcome
        ensures { SaysLack lack result }
    {
        match lack {
            Lack::Fault(fault) => Outcome::of_fault(fault),
            Lack::NoSignedData => Outcome::refused(101, 0, "no signed data"),
            Lack::NoSigner => Outcome::refused(102, 0, "no such signer"),
            Lack::NoContent => Outcome::refused(103, 0, "no content"),
            Lack::NoTstInfo => Outcome::refused(105, 0, "not a TSTInfo in DER"),
            Lack::NoDigest => Outcome::refused(106, 0, "digest not given"),
            Lack::NeedsContent => Outcome::refused(107, 0, "needs the content"),
        }
    }

    /// A refusal for this reason.
    fn refused(reason: u32, at: u64, name: &str) -> Outcome
        requires { length name.now ≤ 24 }
        ensures { Says result 3 reason at 0 name.now }
    {
        let name = padded(name);
        Outcome {
            reason,
            at,
            name,
            ..Outcome::new(REFUSED)
        }
    }

    /// Writes the octets or findings to the beginning of `output` if they fit, and else says how
    /// many there are.
    pub(crate) fn delivered<T: Copy>(octets: &[T], output: &mut [T]) -> Outcome
        ensures { IsDelivered octets.now output.old output.new result }
    {
        let fits = octets.len() <= output.len();
        if fits {
            output[..octets.len()].copy_from_slice(octets);
        }
        Outcome::counting(octets.len() as u64, fits)
    }

    /// So many octets or findings were written, or did not fit.
    pub(crate) fn counting(octets: u64, fits: bool) -> Outcome
        ensures { Says result (if fits then 0 else 6) 0 0 octets [] }
    {
        let mut outcome = Outcome::new(if fits { DONE } else { ROOM_TOO_SMALL });
        outcome.octets = octets;
        outcome
    }
}

/// The name with zeros after it.
fn padded(name: &str) -> [u8; NAME_LEN]
    requires { length name.now ≤ 24 }
    ensures { IsName result name.now }
{
    let mut octets = [0; NAME_LEN];
    octets[..name.len()].copy_from_slice(name.as_bytes());
    octets
}
