//! The text of a certificate, with the status of its claim.

ghost use Rattle.std.specs.Prelude.{◌≡◌, IfOk};
ghost use Rattle.ts_certificate.specs.Certificate.{cert_seen};
ghost use Rattle.ts_run.specs.Certified.{IsWritten, claim_status};
ghost use Rattle.ts_run.specs.Reply.{ComesOfInput, reply_of};

use crate::reply::Reply;
use crate::status::Status;
use std::alloc::Global;
use ts_base::Memory;
use ts_certificate::{Certificate, Claim, write_certificate};

/// The reply that writes a certificate.
pub fn certified(alloc: Global, certificate: &Certificate) -> Result<Reply, Memory>
    ensures written { IfOk result (λ r. IsWritten (cert_seen certificate.now) (reply_of r)) }
    ensures status { IfOk result (λ r. ComesOfInput r.status) }
{
    let text = write_certificate(alloc, certificate)?;
    let status = claim_status(certificate.claim);
    Ok(Reply { text, status })
}

/// `No` where nothing meets, `Budget` where lines ran out.
fn claim_status(claim: Claim) -> Status
    ensures status { result ≡ claim_status claim }
    ensures input { ComesOfInput result }
{
    match claim {
        Claim::Best(_) | Claim::Full(_) => Status::Done,
        Claim::All(count) => { if count == 0 { Status::No } else { Status::Done } }
        Claim::Infeasible => Status::No,
        Claim::BudgetBest(_) | Claim::BudgetNone | Claim::BudgetList(_) => Status::Budget,
    }
}
